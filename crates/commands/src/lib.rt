// Decoding of a command byte.
#![tactic(auto, unfolding(crate::specs::Decode::command_of, crate::specs::Decode::family_of))]

ghost use Rattle.std.specs.Prelude.{◌≡◌};
ghost use Rattle.commands.specs.Decode.{command_of};

use registers::{Command, Transfer};

// The command that a byte names; four families carry an address or an operation in it.
pub fn command_of(byte: u8) -> Command
    ensures { result ≡ command_of byte }
{
    match byte {
        0x00 => Command::Reset,
        0x6E | 0x6F => Command::Vsync,
        0x4B => Command::Cchar,
        0x6B => Command::Start,
        0x46 => Command::Zoom,
        0x49 => Command::Curs,
        0x47 => Command::Pitch,
        0x4A => Command::Mask,
        0x4C => Command::Figs,
        0x6C => Command::Figd,
        0x68 => Command::Gchrd,
        0xE0 => Command::Curd,
        0xC0 => Command::Lprd,
        0xA0 => Command::Rdat(Transfer::Word),
        0xB0 => Command::Rdat(Transfer::Low),
        0xB8 => Command::Rdat(Transfer::High),
        0x70..=0x7F => Command::Pram,
        0x20..=0x23 => Command::Wdat(Transfer::Word),
        0x30..=0x33 => Command::Wdat(Transfer::Low),
        0x38..=0x3B => Command::Wdat(Transfer::High),
        _ => Command::Unknown,
    }
}
