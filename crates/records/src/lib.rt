// The records of a drawing sheet: their ten bytes, the figure or the refusal that they stand for, and whether it lies in the plane.
#![tactic(auto)]

ghost use Rattle.std.specs.Prelude.{◌≡◌};
ghost use Rattle.records.specs.Raw.{byte_at, word_at, record_place, raw_at};
ghost use Rattle.records.specs.Decode.{record_form_b, known_b, factor_b, radius_b, figure_of, decoded_of, decoded_at};
ghost use Rattle.records.specs.Inside.{point_b, square_b, circle_b, inside_b, judged};
ghost use Rattle.records.specs.Refused.{why_number, number_of};

use dots::Operation;

// A dot of the plane.
#[derive(Clone, Copy)]
pub struct Point {
    pub x: u16,
    pub y: u16,
}

#[derive(Clone, Copy)]
pub enum Figure {
    Dot(Point),
    Line(Point, Point),
    Rectangle(Point, Point),
    Glyph { at: Point, number: u8, factor: u8 },
    Circle { centre: Point, radius: u16 },
}

#[derive(Clone, Copy)]
pub struct Record {
    pub op: Operation,
    pub figure: Figure,
}

// Why a record is refused.
#[derive(Clone, Copy)]
pub enum Refusal {
    Form,
    GlyphNumber,
    Factor,
    Radius,
    Outside,
}

// The ten bytes as numbers. The last four are given both ways: as x1, y1 and as a glyph's number and factor. A circle's radius is x1.
#[derive(Clone, Copy)]
pub struct Raw {
    pub kind: u8,
    pub op: u8,
    pub x: u16,
    pub y: u16,
    pub x1: u16,
    pub y1: u16,
    pub number: u8,
    pub factor: u8,
}

// A block's bytes, where its records stand in it, and a record's bytes.
pub const BLOCK_BYTES: u32 = 512;

pub const RECORDS_AT: u32 = 4;

pub const RECORD_BYTES: u32 = 10;

// The kinds of records.
const DOT: u8 = 1;

const LINE: u8 = 2;

const RECTANGLE: u8 = 3;

const GLYPH: u8 = 4;

const CIRCLE: u8 = 5;

// What there is: the plane's dots across and down, and how many glyphs.
#[derive(Clone, Copy)]
pub struct Room {
    pub across: u16,
    pub down: u16,
    pub glyphs: u16,
}

// The byte at a place, 0 past the end.
pub fn byte_at(s: &[u8], at: usize) -> u8
    ensures { result ≡ byte_at s.now at }
{
    if at < s.len() { s[at] } else { 0 }
}

// Two bytes, the low one first.
pub fn word_at(s: &[u8], at: u32) -> u16
    ensures { result ≡ word_at s.now at }
{
    let i = at as usize;
    u16::from(byte_at(s, i)) + 256 * u16::from(byte_at(s, i + 1))
}

// The ten bytes of a record of a block.
fn raw_at(s: &[u8], block: u16, index: u16) -> Raw
    ensures { result ≡ raw_at s.now (record_place block index) }
{
    let at = BLOCK_BYTES * block as u32 + RECORDS_AT + RECORD_BYTES * index as u32;
    let i = at as usize;
    Raw {
        kind: byte_at(s, i),
        op: byte_at(s, i + 1),
        x: word_at(s, at + 2),
        y: word_at(s, at + 4),
        x1: word_at(s, at + 6),
        y1: word_at(s, at + 8),
        number: byte_at(s, i + 6),
        factor: byte_at(s, i + 7),
    }
}

// A record's form: its kind, its operation, and the bytes that are zero.
fn formed(r: Raw) -> bool
    ensures { result ≡ record_form_b r }
{
    (DOT <= r.kind)
        & (r.kind <= CIRCLE)
        & (r.op <= 3)
        & ((r.kind != DOT) | ((r.x1 == 0) & (r.y1 == 0)))
        & ((r.kind != GLYPH) | (r.y1 == 0))
        & ((r.kind != CIRCLE) | (r.y1 == 0))
}

fn known(r: Raw, glyphs: u16) -> bool
    ensures { result ≡ known_b r glyphs }
{
    (r.kind != GLYPH) | ((r.number as u16) < glyphs)
}

fn factored(r: Raw) -> bool
    ensures { result ≡ factor_b r }
{
    (r.kind != GLYPH) | ((1 <= r.factor) & (r.factor <= 16))
}

fn radius_right(r: Raw) -> bool
    ensures { result ≡ radius_b r }
{
    (r.kind != CIRCLE) | ((1 <= r.x1) & (r.x1 <= 2000))
}

fn figure_of(r: Raw) -> Figure
    ensures { result ≡ figure_of r }
{
    let a = Point { x: r.x, y: r.y };
    let b = Point { x: r.x1, y: r.y1 };
    match r.kind {
        DOT => Figure::Dot(a),
        LINE => Figure::Line(a, b),
        RECTANGLE => Figure::Rectangle(a, b),
        GLYPH => Figure::Glyph {
            at: a,
            number: r.number,
            factor: r.factor,
        },
        _ => Figure::Circle {
            centre: a,
            radius: r.x1,
        },
    }
}

fn decode(r: Raw, glyphs: u16) -> Result<Record, Refusal>
    ensures { result ≡ decoded_of r glyphs }
{
    if !formed(r) {
        return Err(Refusal::Form);
    }
    if !known(r, glyphs) {
        return Err(Refusal::GlyphNumber);
    }
    if !factored(r) {
        return Err(Refusal::Factor);
    }
    if !radius_right(r) {
        return Err(Refusal::Radius);
    }
    Ok(Record {
        op: Operation::from(r.op),
        figure: figure_of(r),
    })
}

// What a record of a block stands for, where there are so many glyphs.
pub fn decode_record(s: &[u8], block: u16, index: u16, glyphs: u16) -> Result<Record, Refusal>
    ensures { result ≡ decoded_at s.now (record_place block index) glyphs }
{
    decode(raw_at(s, block, index), glyphs)
}

fn point_in(m: Room, a: Point) -> bool
    ensures { result ≡ point_b m a }
{
    (a.x < m.across) & (a.y < m.down)
}

fn square_in(m: Room, a: Point, g: u8) -> bool
    ensures { result ≡ square_b m a g }
{
    let size = 8 * g as u32;
    (a.x as u32 + size <= m.across as u32) & (a.y as u32 + size <= m.down as u32)
}

// The four ends of a circle lie in the plane; nothing wraps.
fn circle_in(m: Room, a: Point, r: u16) -> bool
    ensures { result ≡ circle_b m a r }
{
    let right = a.x as u32 + r as u32;
    let bottom = a.y as u32 + r as u32;
    (r <= a.x) & (r <= a.y) & (right < m.across as u32) & (bottom < m.down as u32)
}

// Whether a figure lies in the plane.
pub fn inside(m: Room, f: Figure) -> bool
    ensures { result ≡ inside_b m f }
{
    match f {
        Figure::Dot(a) => point_in(m, a),
        Figure::Line(a, b) => point_in(m, a) & point_in(m, b),
        Figure::Rectangle(a, b) => point_in(m, a) & point_in(m, b),
        Figure::Glyph { at, factor, .. } => square_in(m, at, factor),
        Figure::Circle { centre, radius } => circle_in(m, centre, radius),
    }
}

// A figure that does not lie in the plane is refused.
pub fn judge(m: Room, d: Result<Record, Refusal>) -> Result<Record, Refusal>
    ensures { result ≡ judged m d }
{
    let r = d?;
    if inside(m, r.figure) {
        Ok(r)
    } else {
        Err(Refusal::Outside)
    }
}

// The number of a record's refusal.
pub fn why_number(w: Refusal) -> u8
    ensures { result ≡ why_number w }
{
    match w {
        Refusal::Form => 16,
        Refusal::GlyphNumber => 17,
        Refusal::Factor | Refusal::Radius => 18,
        Refusal::Outside => 19,
    }
}

// The number of a record's refusal, 0 for a figure.
pub fn number_of(d: Result<Record, Refusal>) -> u8
    ensures { result ≡ number_of d }
{
    match d {
        Ok(_) => 0,
        Err(w) => why_number(w),
    }
}
