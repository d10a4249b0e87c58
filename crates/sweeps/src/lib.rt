// Many units of an arc at once: the moves of the dots passed over, a walk over the dots before the last, then the last.
#![tactic(auto)]

ghost use Rattle.std.specs.Prelude.{◌≡◌, ◌-◌};
ghost use Rattle.bursts.specs.Burst.{burst};
ghost use Rattle.sweeps.specs.Sweep.{met_by, swept, arc_walk, arc_burst};

use arcs::Moving;
use bursts::Burst;
use dots::Cursor;
use registers::{Running, Work};
use walks::Brush;

mod bits;

// Where cycle k is made.
fn meet(b: Brush, m: Moving, k: u32) -> Moving
    ensures { result ≡ met_by b k m }
{
    if k == 0 {
        return passes::pass(b.drawing.dir, b.pitch, m, b.drawing.dm);
    }
    m
}

// Dots of an arc from dot i on, before dot end, each with the cursor's move after it: for every mask.
fn plain_arc(mem: &mut [u16], b: Brush, from: Moving, i: u32, end: u32) -> Moving
    ensures { swept result mem.new ≡ arc_walk b (end - i) i from mem.old }
{
    let mut m = from;
    for k in i..end {
        walks::steps::dot(mem, b, m.cursor, k);
        m = arcs::move_on(b.drawing.dir, b.pitch, m);
    }
    m
}

// The same, by bit addresses where the mask is one bit.
fn arc_dots(mem: &mut [u16], b: Brush, from: Moving, i: u32, end: u32) -> Moving
    ensures { swept result mem.new ≡ arc_walk b (end - i) i from mem.old }
{
    match passes::address_of(from) {
        Some(at) => bits::arc_bits(mem, b, from, at, i, end),
        None => plain_arc(mem, b, from, i, end),
    }
}

// At most so many units of the arc whose cycle k is next. A dot's pattern bit is told by its number modulo 16.
pub fn arc(mem: &mut [u16], b: Brush, c: Cursor, k: u32, a: Running, most: u32) -> Burst
    ensures { burst result mem.new ≡ arc_burst b most k (record { running = a; cursor = c }) mem.old }
{
    if most == 0 {
        return Burst {
            count: 0,
            cursor: c,
            work: Work::Arc {
                cycle: k,
                running: a,
            },
        };
    }
    let at = Moving {
        running: a,
        cursor: c,
    };
    let from = meet(b, at, k);
    let left = bursts::before_last(k, registers::arc_cycles_of(b.drawing));
    let n = most.min(left);
    let first = b.drawing.dm as u32 + k % 16;
    let cycle = k + n;
    let end = first + n;
    let q = arc_dots(mem, b, from, first, end);
    if n < most {
        walks::steps::dot(mem, b, q.cursor, end);
        return Burst {
            count: n + 1,
            cursor: q.cursor,
            work: Work::Idle,
        };
    }
    Burst {
        count: n,
        cursor: q.cursor,
        work: Work::Arc {
            cycle,
            running: q.running,
        },
    }
}
