// The moves of an arc's dots that are passed over, and what FIGD begins. Where the mask is one bit the moves go by the bit address.
#![tactic(auto)]

ghost use Rattle.std.specs.Prelude.{◌≡◌, ◌<◌, MatchOption};
ghost use Rattle.arcs.specs.Arc.{passed};
ghost use Rattle.arcs.specs.Unit.{copied, arc_begun};
ghost use Rattle.passes.specs.Place.{kept, place_on, place_passed, place_of, standing_at, Stands};

use arcs::Moving;
use registers::{Drawing, Registers, Running, Work};
use walks::bits::stride;

// 2^50, and 2 less of a number of 14 bits there.
const UNIT: u64 = 1125899906842624;

const TWO_LESS: u64 = 18444492273895866368;

// D is negative where the highest bit is set.
const SIGN: u64 = 9223372036854775808;

// The bit address with D; D1; what a diagonal move adds to the bit address, with D2. Each of the three in the high 14 bits.
#[derive(Clone, Copy)]
pub struct Place {
    pub at: u64,
    pub gain: u64,
    pub turn: u64,
}

// 14 bits of D and 22 of the bit address are kept.
fn keep(t: u64) -> u64
    ensures { result ≡ kept t }
{
    t / UNIT * UNIT + t % 4194304
}

// One move.
pub fn place_on(axis: u64, p: Place) -> Place
    ensures { result ≡ place_on axis p }
{
    let d = p.at.wrapping_add(p.gain);
    let gain = p.gain.wrapping_add(TWO_LESS);
    if SIGN <= d {
        return Place {
            at: keep(d.wrapping_add(p.turn)),
            gain,
            turn: p.turn.wrapping_add(TWO_LESS),
        };
    }
    Place {
        at: keep(d.wrapping_add(axis)),
        gain,
        turn: p.turn,
    }
}

// n moves.
fn pass_loop(axis: u64, from: Place, n: u16) -> Place
    ensures { result ≡ place_passed axis from n }
{
    let mut p = from;
    for _ in 0..n {
        p = place_on(axis, p);
    }
    p
}

// An arc at a bit address, and what it stands for.
pub fn place_of(diagonal: u32, at: u32, a: Running) -> Place
    ensures { result ≡ place_of diagonal at a }
{
    Place {
        at: a.d as u64 % 16384 * UNIT + at as u64,
        gain: a.d1 as u64 % 16384 * UNIT,
        turn: a.d2 as u64 % 16384 * UNIT + diagonal as u64,
    }
}

pub fn standing(p: Place) -> Moving
    ensures { result ≡ standing_at p }
{
    Moving {
        running: Running {
            d: (p.at / UNIT) as u16,
            d1: (p.gain / UNIT) as u16,
            d2: (p.turn / UNIT) as u16,
        },
        cursor: dots::cursor_at((p.at % 4194304) as u32),
    }
}

// The bit address of an arc whose mask is one bit and whose copies have 14 bits.
pub fn address_of(m: Moving) -> Option<u32>
    ensures { MatchOption result (Stands m 4194304) (λ a. (a < 4194304) × Stands m a) }
{
    if registers::running_fits(m.running) {
        return walks::bits::address_of(m.cursor);
    }
    None
}

// The moves of n dots that are passed over.
pub fn pass(dir: u8, pitch: u8, m: Moving, n: u16) -> Moving
    ensures { result ≡ passed dir pitch m n }
{
    let Some(at) = address_of(m) else {
        return arcs::pass(dir, pitch, m, n);
    };
    let axis = stride(figures::figure::axis_of(dir), pitch);
    let diagonal = stride(figures::figure::diagonal_of(dir), pitch);
    let from = place_of(diagonal, at, m.running);
    standing(pass_loop(axis as u64, from, n))
}

// The copies with which an arc begins.
fn copy(f: Drawing) -> Running
    ensures { result ≡ copied f }
{
    Running {
        d: f.d,
        d1: f.d1,
        d2: f.d2,
    }
}

// FIGD for an arc: it is in progress, or, where it has no dot to draw, its moves are made.
pub fn begin_arc(r: Registers) -> Registers
    ensures { result ≡ arc_begun r }
{
    let f = r.drawing;
    let running = copy(f);
    if 0 < registers::arc_cycles_of(f) {
        return Registers {
            work: Work::Arc { cycle: 0, running },
            ..r
        };
    }
    let from = Moving {
        running,
        cursor: r.cursor,
    };
    Registers {
        cursor: pass(f.dir, r.pitch, from, f.dc).cursor,
        ..r
    }
}
