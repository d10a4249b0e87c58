// What a sheet costs, said before anything is sent: after the checks of crate refusals, one pass over the records.
#![tactic(auto)]

ghost use Rattle.std.specs.Prelude.{◌≡◌, ◌*◌};
ghost use Rattle.circles.specs.Circle.{circle_dots};
ghost use Rattle.sheets.specs.Slots.{slot_figures, figures};
ghost use Rattle.costs.specs.Dots.{line_dots, border_dots, figure_dots};
ghost use Rattle.costs.specs.Cost.{cost_def, priced, answered};
ghost use Rattle.costs.specs.Share.{share_of, cost_by};

use blocks::Refused;
use records::{Figure, Room};
use refusals::{BLOCK_BYTES, RECORDS};

// What an accepted sheet costs: the entries needed, how many figures there are, and the units that their drawing takes.
#[derive(Clone, Copy)]
pub struct Price {
    pub entries: u32,
    pub figures: u32,
    pub units: u64,
}

// The answer in numbers: a number of refusal with its two values; or 0 with the entries needed and 0, the figures and the units.
#[derive(Clone, Copy)]
pub struct Cost {
    pub number: u8,
    pub first: u32,
    pub second: u32,
    pub figures: u32,
    pub units: u64,
}

// A slot's share: how many figures it has, none or one, their entries and their dots.
#[derive(Clone, Copy)]
pub struct Share {
    pub figures: u32,
    pub entries: u32,
    pub dots: u32,
}

// The dots of a line over these distances: the larger one, and one more.
fn line_dots(a: u16, b: u16) -> u32
    ensures { result ≡ line_dots a b }
{
    u32::from(a.max(b)) + 1
}

// The dots of a rectangle's border over these distances: all round, or the line's where it is flat.
fn border_dots(a: u16, b: u16) -> u32
    ensures { result ≡ border_dots a b }
{
    if (a == 0) | (b == 0) {
        return line_dots(a, b);
    }
    2 * (a as u32 + b as u32)
}

// The dots of a glyph of that factor.
fn glyph_dots(g: u8) -> u32
    ensures { result ≡ 64 * (g * g) }
{
    64 * (g as u32 * g as u32)
}

// The dots of a circle: four even arcs have the largest i and one more, four odd ones the largest i, or one less where the last dots
// coincide.
fn circle_dots(r: u16) -> u32
    ensures { result ≡ circle_dots r }
{
    let largest = circles::largest_of(r) as u32;
    if circles::coincides(r) & (0 < largest) {
        return 8 * largest;
    }
    8 * largest + 4
}

// The dots of a figure.
fn figure_dots(f: Figure) -> u32
    ensures { result ≡ figure_dots f }
{
    match f {
        Figure::Dot(_) => 1,
        Figure::Line(a, b) => line_dots(a.x.abs_diff(b.x), a.y.abs_diff(b.y)),
        Figure::Rectangle(a, b) => border_dots(a.x.abs_diff(b.x), a.y.abs_diff(b.y)),
        Figure::Glyph { factor, .. } => glyph_dots(factor),
        Figure::Circle { radius, .. } => circle_dots(radius),
    }
}

// What a slot adds.
fn slot_share(s: &[u8], k: u16, m: Room) -> Share
    ensures { result ≡ share_of (slot_figures s.now m k) }
{
    match sheets::slot_figure(s, k, m) {
        Some(r) => Share {
            figures: 1,
            entries: entries::size_of(r),
            dots: figure_dots(r.figure),
        },
        None => Share {
            figures: 0,
            entries: 0,
            dots: 0,
        },
    }
}

// What PITCH P and the figures of n blocks cost.
fn counted(s: &[u8], n: u8, m: Room) -> Price
    ensures { priced result ≡ cost_by (figures s.now m n) }
{
    let mut figures: u32 = 0;
    let mut entries: u32 = 2;
    let mut dots: u64 = 0;
    for k in 0..RECORDS * n as u16 {
        let x = slot_share(s, k, m);
        figures += x.figures;
        entries += x.entries;
        dots += x.dots as u64;
    }
    Price {
        entries,
        figures,
        units: entries as u64 + dots,
    }
}

// What the sheet s costs, for a plane of P words by H lines and the glyph table t.
pub fn cost_of(s: &[u8], p: u32, h: u32, t: &[u8]) -> Result<Price, Refused>
    ensures { answered result ≡ cost_def s.now p h t.now }
{
    refusals::sheet_refusal(s, p, h, t)?;
    let n = (s.len() / BLOCK_BYTES) as u8;
    let m = refusals::room_of(p as u8, h as u16, t.len() as u16);
    Ok(counted(s, n, m))
}

// What a sheet costs, in numbers; a refused sheet has no figures and no units.
pub fn told(r: Result<Price, Refused>) -> Cost
    ensures { result ≡ answered r }
{
    match r {
        Ok(q) => Cost {
            number: 0,
            first: q.entries,
            second: 0,
            figures: q.figures,
            units: q.units,
        },
        Err(why) => {
            let refusal = why.answer();
            Cost {
                number: refusal.number,
                first: refusal.first,
                second: refusal.second,
                figures: 0,
                units: 0,
            }
        }
    }
}
