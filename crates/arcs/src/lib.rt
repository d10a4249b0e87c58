// An arc under way: the running D, D1 and D2, and the moves from dot to dot.
#![tactic(auto)]

ghost use Rattle.std.specs.Prelude.{◌≡◌};
ghost use Rattle.arcs.specs.Arc.{gained, losing, turns_b, running_on, arc_direction, moved_on, passed};

use dots::Cursor;
use registers::Running;

// D is two's complement of 14 bits; a number of 14 bits that loses 2 gains 2^14 - 2.
const SIGN: u16 = 8192;

const FOURTEEN_BITS: u32 = 16384;

const TWO_LESS: u32 = 16382;

// Where an arc stands, and its running D, D1 and D2.
#[derive(Clone, Copy)]
pub struct Moving {
    pub running: Running,
    pub cursor: Cursor,
}

// D after it has gained D1.
fn gain(a: Running) -> u16
    ensures { result ≡ gained a }
{
    ((a.d as u32 + a.d1 as u32) % FOURTEEN_BITS) as u16
}

// A number less 2.
fn lose(n: u16) -> u16
    ensures { result ≡ losing n }
{
    ((n as u32 + TWO_LESS) % FOURTEEN_BITS) as u16
}

// Whether the next move is diagonal.
pub fn turns(a: Running) -> bool
    ensures { result ≡ turns_b a }
{
    SIGN <= gain(a)
}

// D, D1 and D2 after a move.
pub fn run_on(a: Running) -> Running
    ensures { result ≡ running_on a }
{
    let d = gain(a);
    let d1 = lose(a.d1);
    if SIGN <= d {
        return Running {
            d: ((d as u32 + a.d2 as u32) % FOURTEEN_BITS) as u16,
            d1,
            d2: lose(a.d2),
        };
    }
    Running { d, d1, ..a }
}

// The direction of the move.
fn direction(dir: u8, a: Running) -> u8
    ensures { result ≡ arc_direction dir a }
{
    if turns(a) {
        return figures::figure::diagonal_of(dir);
    }
    figures::figure::axis_of(dir)
}

// One move.
pub fn move_on(dir: u8, pitch: u8, m: Moving) -> Moving
    ensures { result ≡ moved_on dir pitch m }
{
    let a = m.running;
    Moving {
        running: run_on(a),
        cursor: dots::step(direction(dir, a), pitch, m.cursor),
    }
}

// The moves of n dots that are passed over, for every mask.
pub fn pass(dir: u8, pitch: u8, m: Moving, n: u16) -> Moving
    ensures { result ≡ passed dir pitch m n }
{
    let mut at = m;
    for _ in 0..n {
        at = move_on(dir, pitch, at);
    }
    at
}
