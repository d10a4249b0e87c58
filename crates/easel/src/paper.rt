// The lines to the picture's size, the glyph table and the sheet.
ghost use Rattle.std.specs.Prelude.{◌≡◌};
ghost use Rattle.easel.specs.Parts.{table_of, sheet_of};
ghost use Rattle.easel.specs.Paper.{
  accepted_on,
  refused_on,
  size_laid,
  glyphs_laid,
  sheet_laid,
  outcome,
  new_glyphs,
  more_sheet,
  paper_done,
};

use console::desk::{Desk, Reply};
use orders::Paper;

// The papers are one buffer: first a table of at most so many bytes, then a sheet.
pub const TABLE: usize = 4096;

pub const SHEET: usize = 8704;

// What such a line does: what stands on the bench after it, and its answer.
#[derive(Clone, Copy)]
pub struct Laid {
    pub desk: Desk,
    pub reply: Reply,
}

// A line that was taken.
fn accepted(d: Desk, letter: u8) -> Laid
    ensures { result ≡ accepted_on d letter }
{
    Laid {
        desk: d,
        reply: Reply::One(letter, 0),
    }
}

fn refused(d: Desk) -> Laid
    ensures { result ≡ refused_on d }
{
    Laid {
        desk: d,
        reply: Reply::Unknown,
    }
}

// `Q p h`
fn size(d: Desk, p: u32, h: u32) -> Laid
    ensures { result ≡ size_laid d p h }
{
    accepted(
        Desk {
            across: p,
            down: h,
            ..d
        },
        b'Q',
    )
}

// The glyph table has n bytes: none with `G` alone.
fn glyphs_are(d: Desk, n: usize) -> Laid
    ensures { result ≡ glyphs_laid d n }
{
    accepted(Desk { glyphs: n, ..d }, b'G')
}

// The sheet has n bytes: none with `Z`.
fn sheet_is(d: Desk, n: usize, letter: u8) -> Laid
    ensures { result ≡ sheet_laid d n letter }
{
    accepted(Desk { sheet: n, ..d }, letter)
}

// `G hex`
#[tactic(auto, unfolding(crate::specs::Paper::new_glyphs))]
fn new_glyphs(d: Desk, hex: &[u8], papers: &mut [u8]) -> Laid
    ensures { outcome result papers.new ≡ new_glyphs d hex.now papers.old }
{
    let n = hex.len() / 2;
    if TABLE < n || !script::bytes_right(hex) {
        return refused(d);
    }
    script::put_bytes(hex, papers, 0);
    glyphs_are(d, n)
}

// `B hex`
#[tactic(auto, unfolding(crate::specs::Paper::more_sheet))]
fn more_sheet(d: Desk, hex: &[u8], papers: &mut [u8]) -> Laid
    ensures { outcome result papers.new ≡ more_sheet d hex.now papers.old }
{
    let n = hex.len() / 2;
    let had = d.sheet;
    if SHEET < had || SHEET - had < n || !script::bytes_right(hex) {
        return refused(d);
    }
    script::put_bytes(hex, papers, TABLE + had);
    sheet_is(d, had + n, b'B')
}

// What a line to the papers does; hex is what stands behind its letter and the space.
#[tactic(auto, unfolding(crate::specs::Paper::paper_done))]
pub fn paper_done(d: Desk, p: Paper, hex: &[u8], papers: &mut [u8]) -> Laid
    ensures { outcome result papers.new ≡ paper_done d p hex.now papers.old }
{
    match p {
        Paper::Size(p, h) => size(d, p, h),
        Paper::NoGlyphs => glyphs_are(d, 0),
        Paper::Glyphs => new_glyphs(d, hex, papers),
        Paper::NoSheet => sheet_is(d, 0, b'Z'),
        Paper::More => more_sheet(d, hex, papers),
    }
}

// The glyph table's n bytes.
pub fn table_of(papers: &[u8], n: usize) -> &[u8]
    ensures { result.now ≡ table_of papers.now n }
{
    buffers::part(n, papers)
}

// The sheet's n bytes.
#[tactic(auto, unfolding(crate::specs::Parts::sheet_of))]
pub fn sheet_of(papers: &[u8], n: usize) -> &[u8]
    ensures { result.now ≡ sheet_of papers.now n }
{
    let Some(rest) = papers.get(TABLE..) else {
        return papers;
    };
    buffers::part(n, rest)
}
