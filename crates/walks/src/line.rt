// Dots of a line: the bit address and D in one number.
ghost use Rattle.std.specs.Prelude.{◌≡◌, ◌+◌, ◌-◌, ◌<◌};
ghost use Rattle.dots.specs.Dot.{cursor_at};
ghost use Rattle.registers.specs.Size.{line_kind};
ghost use Rattle.walks.specs.Walk.{led, figure_walk};
ghost use Rattle.walks.specs.Address.{Packed, kept};
ghost use Rattle.walks.specs.Line.{line_at, line_on};

use crate::bits::stride;
use crate::pace::{Pace, Stroke};
use crate::{Brush, Reached};

// The bit address, and D times 2^32.
fn packed(at: u32, d: u16) -> u64
    ensures { Packed at d result }
{
    d as u64 * 4294967296 + at as u64
}

// 22 bits of the one and 14 of the other are kept.
fn keep(t: u64) -> u64
    ensures { result ≡ kept t }
{
    t / 4294967296 % 16384 * 4294967296 + t % 4194304
}

// A line's place, and what is added to it by a move along the axis and by one along the diagonal: each a bit address and D.
#[derive(Clone, Copy)]
struct Line {
    place: u64,
    axis: u64,
    diagonal: u64,
}

impl Pace for Line {
    ghost at = { line_at };

    ghost on = { line_on };

    fn address(self) -> u32 {
        (self.place % 4194304) as u32
    }

    // A line's move, and D after it. D is negative from 2^13 on, which is 2^45 here.
    fn step(self) -> Line {
        let gain = if 35184372088832 <= self.place {
            self.axis
        } else {
            self.diagonal
        };
        Line {
            place: keep(self.place.wrapping_add(gain)),
            ..self
        }
    }
}

// Dots of a line from dot k on, which stands at the bit address at, before dot end.
pub(crate) fn line_dots(mem: &mut [u16], b: Brush, at: u32, d: u16, k: u32, end: u32) -> Reached
    requires { (b.drawing.kind ≡ line_kind) × (at < 4194304) }
    ensures { led result mem.new ≡ figure_walk b (end - k) k d (cursor_at at) mem.old }
{
    let f = b.drawing;
    let along = stride(figures::figure::axis_of(f.dir), b.pitch);
    let across = stride(figures::figure::diagonal_of(f.dir), b.pitch);
    let from = Line {
        place: packed(at, d),
        axis: packed(along, f.d1),
        diagonal: packed(across, f.d2),
    };
    let place = crate::pace::walk(mem, b.stroke(), from, k, end).place;
    Reached {
        cursor: dots::cursor_at((place % 4194304) as u32),
        d: (place / 4294967296 % 65536) as u16,
    }
}
