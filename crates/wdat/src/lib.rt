// WDAT's sets.
#![tactic(auto, unfolding(crate::specs::Wdat::set_done, crate::specs::Wdat::wdat_taken))]

ghost use Rattle.std.specs.Prelude.{◌≡◌};
ghost use Rattle.registers.specs.Put.{put_progress};
ghost use Rattle.registers.specs.State.{state};
ghost use Rattle.wdat.specs.Wdat.{half_b, bit_mapped_b, bit_mapped_pattern, wdat_pattern, set_pattern};
ghost use Rattle.wdat.specs.Wdat.{wdat_progress, set_done, wdat_taken};

use registers::{Command, Progress, Registers, Transfer};

// Whether a byte leaves its set half-sent.
pub fn half(t: Transfer, i: u8) -> bool
    ensures { result ≡ half_b t i }
{
    match t {
        Transfer::Word => i == 0,
        Transfer::Low | Transfer::High => false,
    }
}

// Bit-mapped work, by C and G of sync byte 1 and by GD.
pub fn bit_mapped(sync: u8, gd: bool) -> bool
    ensures { result ≡ bit_mapped_b sync gd }
{
    (sync / 32 % 2 == 0) & ((sync / 2 % 2 == 1) | gd)
}

// Bit 0 fills the pattern of a word, or its byte.
fn filled(t: Transfer, low: u8, v: u8) -> u16
    ensures { result ≡ bit_mapped_pattern t low v }
{
    match t {
        Transfer::Word => (low % 2) as u16 * 65535,
        Transfer::Low => (v % 2) as u16 * 255,
        Transfer::High => (v % 2) as u16 * 65280,
    }
}

// All bits of a set.
fn pattern_of(t: Transfer, low: u8, v: u8) -> u16
    ensures { result ≡ wdat_pattern t low v }
{
    match t {
        Transfer::Word => u16::from_le_bytes([low, v]),
        Transfer::Low => v as u16,
        Transfer::High => 256 * v as u16,
    }
}

// The sixteen bits of a complete set.
pub fn set_pattern(mapped: bool, t: Transfer, low: u8, v: u8) -> u16
    ensures { result ≡ set_pattern mapped t low v }
{
    if mapped {
        filled(t, low, v)
    } else {
        pattern_of(t, low, v)
    }
}

// The place within a set.
fn place(r: Registers, t: Transfer, next: u8, low: u8) -> Registers
    ensures { result ≡ put_progress r (wdat_progress t next low) }
{
    Registers {
        progress: Progress {
            command: Command::Wdat(t),
            next,
            low,
        },
        ..r
    }
}

// A set is complete: EAD moves a whole word.
fn set_done(r: Registers, t: Transfer) -> Registers
    ensures { result ≡ set_done t r }
{
    let cursor = dots::word_move(r.drawing.dir, r.pitch, r.cursor);
    place(Registers { cursor, ..r }, t, 0, 0)
}

// A byte of a set is taken; the set that becomes complete makes its cycle.
pub fn wdat_taken(r: Registers, t: Transfer, i: u8, v: u8, mem: &mut [u16]) -> Registers
    ensures { state result mem.new ≡ wdat_taken t i v r mem.old }
{
    if half(t, i) {
        return place(r, t, 1, v);
    }
    let mapped = bit_mapped(r.video.sync[0], r.drawing.gd);
    let pattern = set_pattern(mapped, t, r.progress.low, v);
    dots::cycle(mem, r.board.wiring, r.cursor, pattern, r.op);
    set_done(r, t)
}
