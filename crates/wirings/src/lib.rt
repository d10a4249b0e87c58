// The wiring of a board: named by a word, and put into a register set (02, M-108).
#![tactic(auto)]

ghost use Rattle.std.specs.Prelude.{◌≡◌};
ghost use Rattle.wirings.specs.Wired.{wiring_named, wired_as};

use dots::Wiring;
use registers::{Board, Registers};
use std::rt::Env;

// The wiring that a word names, if it names one: `open` or `folded`.
pub fn wiring_named(text: &[u8]) -> Option<Wiring>
    ensures { result ≡ wiring_named text.now }
{
    if check::same(text, b"open") {
        return Some(Wiring::Open);
    }
    if check::same(text, b"folded") {
        return Some(Wiring::Folded);
    }
    None
}

// Argument i as a wiring: folded where it is not given.
pub fn wiring_at(rt: &impl Env, i: usize) -> Option<Wiring> {
    if !outside::is_given(rt, i) {
        return Some(Wiring::Folded);
    }
    let mut text = [0u8; 16];
    let n = outside::arg(rt, i, &mut text);
    wiring_named(&text[..n])
}

// The register set with that wiring; all else stays.
pub fn wired(r: Registers, wiring: Wiring) -> Registers
    ensures { result ≡ wired_as wiring r }
{
    Registers {
        board: Board { wiring },
        ..r
    }
}
