// Dots one after another by what stands for their place, each with the step after it: of a line, a side, a row and an arc alike.
ghost use Rattle.std.specs.Prelude.{◌≡◌, ℕ, ◌-◌};
ghost use Rattle.dots.specs.Operation.{operation_of};
ghost use Rattle.walks.specs.Pace.{paced, pace_walk};

use dots::{Cursor, Operation, Wiring};

// What stands for the place of a dot, with all that the step after it asks: at is its bit address, on what the step leads to.
pub trait Pace: Copy {
    ghost at: { Self → ℕ };

    ghost on: { Self → Self };

    // The bit address.
    fn address(self) -> u32
        ensures { result ≡ at self };

    // The step to the next dot.
    fn step(self) -> Self
        ensures { result ≡ on self };
}

// What each dot is drawn with: bit k mod 16 of the pattern low, high is dot k's.
#[derive(Clone, Copy)]
pub struct Stroke {
    pub wiring: Wiring,
    pub op: Operation,
    pub low: u8,
    pub high: u8,
}

// Dots k to end by the operation of a number, known before the first dot, as the table of masks is.
#[inline(always)]
fn walk_loop<P: Pace, const OP: u8>(mem: &mut [u16], s: Stroke, from: P, k: u32, end: u32) -> P
    ensures { paced result mem.new ≡ pace_walk P.at P.on s.wiring (operation_of OP) s.low s.high (end - k) k from mem.old }
{
    let masks = dots::MASKS;
    let mut p = from;
    for i in k..end {
        let a = p.address();
        let c = Cursor {
            ead: a / 16,
            mask: masks[(a % 16) as usize],
        };
        let pattern = figures::figure::pattern_of(s.low, s.high, i);
        dots::cycle(mem, s.wiring, c, pattern, Operation::from(OP));
        p = p.step();
    }
    p
}

// The same by the operation, which is looked at once. It is compiled into each call, so that where the pattern is all ones no dot asks it.
#[inline(always)]
pub(crate) fn walk_by<P: Pace>(mem: &mut [u16], s: Stroke, from: P, k: u32, end: u32) -> P
    ensures { paced result mem.new ≡ pace_walk P.at P.on s.wiring s.op s.low s.high (end - k) k from mem.old }
{
    match s.op {
        Operation::Replace => walk_loop::<P, 0>(mem, s, from, k, end),
        Operation::Complement => walk_loop::<P, 1>(mem, s, from, k, end),
        Operation::Reset => walk_loop::<P, 2>(mem, s, from, k, end),
        Operation::Set => walk_loop::<P, 3>(mem, s, from, k, end),
    }
}

// The same; whether the pattern is all ones is looked at once too.
pub fn walk<P: Pace>(mem: &mut [u16], s: Stroke, from: P, k: u32, end: u32) -> P
    ensures { paced result mem.new ≡ pace_walk P.at P.on s.wiring s.op s.low s.high (end - k) k from mem.old }
{
    if s.low == 255 && s.high == 255 {
        let solid = Stroke {
            low: 255,
            high: 255,
            ..s
        };
        return walk_by(mem, solid, from, k, end);
    }
    walk_by(mem, s, from, k, end)
}
