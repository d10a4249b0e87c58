// The pattern, the steps and the running D of a figure that FIGD draws: dots along a direction, a line, a rectangle.
ghost use Rattle.std.specs.Prelude.{◌≡◌};
ghost use Rattle.figures.specs.Figure.{
  pattern_of,
  axis_of,
  diagonal_of,
  line_direction,
  error_after,
  side_of,
  direction_at,
  running_d,
};

use registers::Drawing;

// D is two's complement of 14 bits.
const SIGN: u16 = 8192;

const FOURTEEN_BITS: u32 = 16384;

// Dot k's pattern bit, for all masked bits.
pub fn pattern_of(low: u8, high: u8, k: u32) -> u16
    ensures { result ≡ pattern_of low high k }
{
    let word = low as u32 + 256 * high as u32;
    ((word >> (k % 16)) % 2 * 65535) as u16
}

// The axis and the diagonal of a line.
pub fn axis_of(dir: u8) -> u8
    ensures { result ≡ axis_of dir }
{
    if dir % 2 == 0 {
        dir
    } else {
        ((dir as u16 + 1) % 8) as u8
    }
}

pub fn diagonal_of(dir: u8) -> u8
    ensures { result ≡ diagonal_of dir }
{
    if dir % 2 == 0 { dir + 1 } else { dir }
}

// A line's move: along the axis where D is negative, else along the diagonal.
#[tactic(auto, unfolding(crate::specs::Figure::line_direction))]
fn line_direction(dir: u8, d: u16) -> u8
    ensures { result ≡ line_direction dir d }
{
    if SIGN <= d {
        axis_of(dir)
    } else {
        diagonal_of(dir)
    }
}

// .. and D after it: the 14-bit sum wraps.
#[tactic(auto, unfolding(crate::specs::Figure::error_after))]
fn error_after(f: Drawing, d: u16) -> u16
    ensures { result ≡ error_after f d }
{
    if SIGN <= d {
        ((d as u32 + f.d1 as u32) % FOURTEEN_BITS) as u16
    } else {
        ((d as u32 + f.d2 as u32) % FOURTEEN_BITS) as u16
    }
}

// The side of a rectangle that dot k is on.
#[tactic(auto, unfolding(crate::specs::Figure::side_of))]
fn side_of(d: u16, d2: u16, k: u32) -> u16
    ensures { result ≡ side_of d d2 k }
{
    let first = d as u32;
    let second = first + d2 as u32;
    let third = second + d as u32;
    if k < first {
        0
    } else if k < second {
        2
    } else if k < third {
        4
    } else {
        6
    }
}

// The direction of the step after dot k.
#[tactic(auto, unfolding(crate::specs::Figure::direction_at))]
pub fn direction_at(f: Drawing, k: u32, d: u16) -> u8
    ensures { result ≡ direction_at f k d }
{
    match f.kind {
        registers::LINE_KIND => line_direction(f.dir, d),
        registers::RECTANGLE_KIND => ((f.dir as u32 + side_of(f.d, f.d2, k) as u32) % 8) as u8,
        _ => f.dir,
    }
}

// The running D after dot k.
#[tactic(auto, unfolding(crate::specs::Figure::running_d))]
pub fn running_d(f: Drawing, d: u16) -> u16
    ensures { result ≡ running_d f d }
{
    match f.kind {
        registers::LINE_KIND => error_after(f, d),
        _ => d,
    }
}
