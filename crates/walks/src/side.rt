// Dots along one direction: the sides of a rectangle, the rows of a character that is not enlarged.
ghost use Rattle.std.specs.Prelude.{◌≡◌, ◌+◌, ◌-◌, ◌<◌};
ghost use Rattle.dots.specs.Dot.{cursor_at};
ghost use Rattle.registers.specs.Size.{line_kind, factor_of};
ghost use Rattle.walks.specs.Walk.{led, figure_walk, stood, row_walk, rows_walk};
ghost use Rattle.walks.specs.Address.{Side, row_byte};
ghost use Rattle.walks.specs.Straight.{straight_at, straight_on};

use crate::bits::stride;
use crate::pace::{self, Pace, Stroke};
use crate::{Brush, Reached};
use registers::Drawing;

// A bit address, and what a step along one direction adds to it.
#[derive(Clone, Copy)]
struct Straight {
    at: u32,
    step: u32,
}

impl Pace for Straight {
    ghost at = { straight_at };

    ghost on = { straight_on };

    fn address(self) -> u32 {
        self.at
    }

    fn step(self) -> Straight {
        Straight {
            at: self.at.wrapping_add(self.step) % 4194304,
            ..self
        }
    }
}

// Where the side ends that dot k is on.
fn side_end(f: Drawing, k: u32) -> u32
    requires { ((f.kind ≡ line_kind) → ⊥) × (k < 4294967295) }
    ensures { Side f k result }
{
    if f.kind != registers::RECTANGLE_KIND {
        return 4294967295;
    }
    let first = f.d as u32;
    let second = first + f.d2 as u32;
    let third = second + f.d as u32;
    if k < first {
        return first;
    }
    if k < second {
        return second;
    }
    if k < third {
        return third;
    }
    4294967295
}

// Dots of a figure that is no line from dot k on, which stands at the bit address at, before dot end: side after side.
pub(crate) fn side_dots(mem: &mut [u16], b: Brush, at: u32, d: u16, k: u32, end: u32) -> Reached
    requires { ((b.drawing.kind ≡ line_kind) → ⊥) × (at < 4194304) }
    ensures { led result mem.new ≡ figure_walk b (end - k) k d (cursor_at at) mem.old }
{
    let mut a = at;
    let mut i = k;
    while i < end {
        let e = end.min(side_end(b.drawing, i));
        let step = stride(figures::figure::direction_at(b.drawing, i, d), b.pitch);
        a = pace::walk(mem, b.stroke(), Straight { at: a, step }, i, e).at;
        i = e;
    }
    Reached {
        cursor: dots::cursor_at(a),
        d,
    }
}

// The pattern byte of a character's row.
fn row_byte(ram: [u8; 16], y: u32) -> u8
    ensures { result ≡ row_byte ram y }
{
    ram[15 - (y % 8) as usize]
}

// Dots of row y from dot x on, which stands at the bit address at, before dot end; the bit address that they lead to.
pub(crate) fn row_bits(mem: &mut [u16], b: Brush, y: u32, x: u32, at: u32, end: u32) -> u32
    requires { (factor_of b.zoom ≡ 1) × (at < 4194304) }
    ensures { stood (cursor_at result) mem.new ≡ row_walk b (end - x) y x (cursor_at at) mem.old }
{
    let byte = row_byte(b.ram, y);
    let s = Stroke {
        wiring: b.wiring,
        op: b.op,
        low: byte,
        high: byte,
    };
    let from = Straight {
        at,
        step: stride(b.drawing.dir, b.pitch),
    };
    pace::walk_by(mem, s, from, x, end).at
}

// Whole rows from row y on, which starts at the bit address at, before row end; where the next one starts.
pub(crate) fn rows_bits(mem: &mut [u16], b: Brush, y: u32, at: u32, end: u32) -> u32
    requires { (factor_of b.zoom ≡ 1) × (at < 4194304) }
    ensures { stood (cursor_at result) mem.new ≡ rows_walk b (end - y) y (cursor_at at) mem.old }
{
    let columns = registers::columns_of(b.drawing, b.zoom);
    let down = stride(((b.drawing.dir as u16 + 2) % 8) as u8, b.pitch);
    let mut s = at;
    for i in y..end {
        row_bits(mem, b, i, 0, s, columns);
        s = (s + down) % 4194304;
    }
    s
}
