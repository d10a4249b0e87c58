// The entries for one figure: the commands and parameter bytes that draw it.
#![tactic(auto)]

ghost use Rattle.std.specs.Prelude.{◌≡◌, cond, ◌+◌, ◌*◌, ◌/◌, ◌%◌, ◌-◌, ◌<◌, get_or, set};
ghost use Rattle.dots.specs.Operation.{operation_number};
ghost use Rattle.circles.specs.Circle.{arc_dc, end_x, end_y};
ghost use Rattle.entries.specs.Entries.{wdat_code, minus14, dot_entries, line_entries, rectangle_entries};
ghost use Rattle.entries.specs.Entries.{glyph_entries, arc_entries, circle_entries};
ghost use Rattle.entries.specs.Entries.{least, greatest, plain, size_of, figure_entries, entries_of, placed};

use dots::Operation;
use records::{Figure, Point, Record};

mod way;

// The commands of a translation, each its byte + 256: WDAT of a word with the operation to be added, PRAM at address 8.
const WDAT: u16 = 0x120;

const ZOOM: u16 = 0x146;

const CURS: u16 = 0x149;

const FIGS: u16 = 0x14C;

const GCHRD: u16 = 0x168;

const FIGD: u16 = 0x16C;

const PRAM_8: u16 = 0x178;

// A line's direction, its larger distance and its smaller one.
#[derive(Clone, Copy)]
pub struct Slope {
    pub dir: u8,
    pub major: u16,
    pub minor: u16,
}

// WDAT word with the operation.
fn wdat(op: Operation) -> u16
    ensures { result ≡ wdat_code + operation_number op }
{
    WDAT + u16::from(u8::from(op))
}

// The word of the dot (x, y).
fn word_of(p: u8, x: u32, y: u32) -> u32
    requires { y < 131072 }
    ensures { result ≡ y * p + x / 16 }
{
    y * p as u32 + x / 16
}

// x - n in 14 bits.
fn minus(x: u32, n: u32) -> u32
    ensures { result ≡ minus14 x n }
{
    (x % 16384 + 16384 - n % 16384) % 16384
}

// CURS's third byte: the dot address and EAD's top.
fn third(e: u32, x: u32) -> u16
    ensures { result ≡ x % 16 * 16 + e / 65536 % 4 }
{
    (x % 16 * 16 + e / 65536 % 4) as u16
}

fn dot_entries(p: u8, a: Point) -> [u16; 10]
    ensures { result ≡ dot_entries p a }
{
    let x = a.x as u32;
    let e = word_of(p, x, a.y as u32);
    [
        CURS,
        (e % 256) as u16,
        (e / 256 % 256) as u16,
        third(e, x),
        PRAM_8,
        0xFF,
        0xFF,
        FIGS,
        0x02,
        FIGD,
    ]
}

fn line_entries(p: u8, a: Point, b: Point) -> [u16; 18]
    ensures { result ≡ line_entries p a b }
{
    let x = a.x as u32;
    let e = word_of(p, x, a.y as u32);
    let s = way::slope_of(a, b);
    let n = s.major as u32;
    let m = s.minor as u32;
    let d = minus(2 * m, n);
    let d2 = minus(2 * m, 2 * n);
    [
        CURS,
        (e % 256) as u16,
        (e / 256 % 256) as u16,
        third(e, x),
        PRAM_8,
        0xFF,
        0xFF,
        FIGS,
        8 + s.dir as u16,
        (n % 256) as u16,
        (n / 256 % 256) as u16,
        (d % 256) as u16,
        (d / 256 % 256) as u16,
        (d2 % 256) as u16,
        (d2 / 256 % 256) as u16,
        (2 * m % 256) as u16,
        (2 * m / 256 % 256) as u16,
        FIGD,
    ]
}

fn rectangle_entries(p: u8, a: Point, w: u16, h: u16) -> [u16; 20]
    ensures { result ≡ rectangle_entries p a w h }
{
    let x = a.x as u32;
    let e = word_of(p, x, a.y as u32);
    [
        CURS,
        (e % 256) as u16,
        (e / 256 % 256) as u16,
        third(e, x),
        PRAM_8,
        0xFF,
        0xFF,
        FIGS,
        0x40,
        3,
        0,
        h % 256,
        h / 256 % 256,
        w % 256,
        w / 256 % 256,
        0xFF,
        0x3F,
        h % 256,
        h / 256 % 256,
        FIGD,
    ]
}

// A row of a glyph: the byte at i, 0 past the end.
fn row(t: &[u8], i: usize) -> u16
    ensures { result ≡ get_or t.now i 0 }
{
    u16::from(records::byte_at(t, i))
}

fn glyph_entries(t: &[u8], p: u8, a: Point, n: u8, g: u8) -> [u16; 20]
    ensures { result ≡ glyph_entries t.now p a n g }
{
    let x = a.x as u32;
    let e = word_of(p, x, a.y as u32 + (8 * g as u32).saturating_sub(1));
    let k = 8 * n as usize;
    [
        ZOOM,
        u16::from(g.saturating_sub(1)),
        CURS,
        (e % 256) as u16,
        (e / 256 % 256) as u16,
        third(e, x),
        PRAM_8,
        row(t, k),
        row(t, k + 1),
        row(t, k + 2),
        row(t, k + 3),
        row(t, k + 4),
        row(t, k + 5),
        row(t, k + 6),
        row(t, k + 7),
        FIGS,
        0x12,
        7,
        0,
        GCHRD,
    ]
}

// DC of an arc: the largest i, and one less for an odd arc where the last dots coincide.
fn dc_of(largest: u16, coincide: bool, dir: u16) -> u16
    ensures { result ≡ largest - cond coincide (dir % 2) 0 }
{
    if coincide {
        largest.saturating_sub(dir % 2)
    } else {
        largest
    }
}

// Where the arc of a DIR starts, across.
fn end_x(x: u16, r: u16, dir: u16) -> u32
    requires { dir < 8 }
    ensures { result ≡ end_x x r dir }
{
    let middle = x as u32;
    let left = middle.saturating_sub(r as u32);
    let right = middle + r as u32;
    let ends = [left, middle, middle, left, right, middle, middle, right];
    ends[dir as usize]
}

// .. and down.
fn end_y(y: u16, r: u16, dir: u16) -> u32
    requires { dir < 8 }
    ensures { result ≡ end_y y r dir }
{
    let middle = y as u32;
    let top = middle.saturating_sub(r as u32);
    let bottom = middle + r as u32;
    let ends = [middle, top, bottom, middle, middle, bottom, top, middle];
    ends[dir as usize]
}

// The arc of a DIR; dc is its DC.
fn arc_entries(p: u8, c: Point, r: u16, dir: u16, dc: u16) -> [u16; 20]
    requires dir_bound { dir < 8 }
    requires dc_value { dc ≡ arc_dc r dir }
    ensures { result ≡ arc_entries p c r dir }
{
    let x = end_x(c.x, r, dir);
    let e = word_of(p, x, end_y(c.y, r, dir));
    let d = (r as u32).saturating_sub(1);
    let dm = dir % 2;
    [
        CURS,
        (e % 256) as u16,
        (e / 256 % 256) as u16,
        third(e, x),
        PRAM_8,
        0xFF,
        0xFF,
        FIGS,
        0x20 + dir,
        dc % 256,
        dc / 256 % 256,
        (d % 256) as u16,
        (d / 256 % 256) as u16,
        (2 * d % 256) as u16,
        (2 * d / 256 % 256) as u16,
        0xFF,
        0x3F,
        dm % 256,
        dm / 256 % 256,
        FIGD,
    ]
}

fn least_of(a: Point, b: Point) -> Point
    ensures { result ≡ least a b }
{
    Point {
        x: a.x.min(b.x),
        y: a.y.min(b.y),
    }
}

fn greatest_of(a: Point, b: Point) -> Point
    ensures { result ≡ greatest a b }
{
    Point {
        x: a.x.max(b.x),
        y: a.y.max(b.y),
    }
}

// A rectangle's corners in order; a flat one as a line.
fn plain_of(f: Figure) -> Figure
    ensures { result ≡ plain f }
{
    match f {
        Figure::Rectangle(a, b) => {
            let from = least_of(a, b);
            let to = greatest_of(a, b);
            if (a.x == b.x) | (a.y == b.y) {
                return Figure::Line(from, to);
            }
            Figure::Rectangle(from, to)
        }
        other => other,
    }
}

// How many entries a record takes.
pub fn size_of(r: Record) -> u32
    ensures { result ≡ size_of r }
{
    match plain_of(r.figure) {
        Figure::Dot(_) => 11,
        Figure::Line(..) => 19,
        Figure::Rectangle(..) => 21,
        Figure::Glyph { .. } => 21,
        Figure::Circle { .. } => 161,
    }
}

// One entry, if there is room for it.
fn store(out: &mut [u16], at: usize, x: u16)
    ensures { out.new ≡ set out.old at x }
{
    if at < out.len() {
        out[at] = x;
    }
}

// The entries e go into out from at on, as far as there is room.
fn put_from(out: &mut [u16], at: usize, e: &[u16])
    requires { at < 8589934592 }
    ensures { out.new ≡ placed out.old at e.now }
{
    for (i, x) in e.iter().enumerate() {
        store(out, at + i, *x);
    }
}

pub fn put(out: &mut [u16], at: u32, e: &[u16])
    ensures { out.new ≡ placed out.old at e.now }
{
    put_from(out, at as usize, e);
}

// The eight arcs of a circle, in order of DIR, go into out from at on, as far as there is room.
fn put_circle(out: &mut [u16], at: usize, p: u8, c: Point, r: u16)
    requires { at < 4294967297 }
    ensures { out.new ≡ placed out.old at (circle_entries p c r) }
{
    let largest = circles::largest_of(r);
    let coincide = circles::coincides(r);
    for dir in 0..8 {
        let dc = dc_of(largest, coincide, dir);
        put_from(out, at + 20 * dir as usize, &arc_entries(p, c, r, dir, dc));
    }
}

// The entries of a figure that is plain go into out from at on, as far as there is room.
fn put_figure(out: &mut [u16], at: usize, t: &[u8], p: u8, f: Figure)
    requires { at < 4294967297 }
    ensures { out.new ≡ placed out.old at (figure_entries t.now p f) }
{
    match f {
        Figure::Dot(a) => put_from(out, at, &dot_entries(p, a)),
        Figure::Line(a, b) => put_from(out, at, &line_entries(p, a, b)),
        Figure::Rectangle(a, b) => put_from(
            out,
            at,
            &rectangle_entries(p, a, a.x.abs_diff(b.x), a.y.abs_diff(b.y)),
        ),
        Figure::Glyph {
            at: a,
            number,
            factor,
        } => put_from(out, at, &glyph_entries(t, p, a, number, factor)),
        Figure::Circle { centre, radius } => put_circle(out, at, p, centre, radius),
    }
}

// The entries of a record go into out from at on, as far as there is room: WDAT, and the figure's.
pub fn put_record(out: &mut [u16], at: u32, t: &[u8], p: u8, r: Record)
    ensures { out.new ≡ placed out.old at (entries_of t.now p r) }
{
    store(out, at as usize, wdat(r.op));
    put_figure(out, at as usize + 1, t, p, plain_of(r.figure));
}
