// The numbers that stand for bits and enums.
ghost use Rattle.std.specs.Prelude.{◌≡◌};
ghost use Rattle.plain.specs.Numbers.{
  bit_of,
  bit_number,
  mode_of,
  mode_number,
  wiring_of,
  wiring_number,
  transfer_of,
  transfer_number,
  command_of,
  command_number,
  command_transfer,
};

use dots::Wiring;
use registers::{Command, Mode, Transfer};

// How many of each there are.
pub const OPERATIONS: u8 = 4;

pub const MODES: u8 = 2;

pub const WIRINGS: u8 = 2;

pub const TRANSFERS: u8 = 3;

pub const COMMANDS: u8 = 18;

// The two commands that a transfer stands beside.
pub const WDAT: u8 = 15;

pub const RDAT: u8 = 16;

pub fn bit_of(n: u8) -> bool
    ensures { result ≡ bit_of n }
{
    n == 1
}

pub fn bit_number(t: bool) -> u8
    ensures { result ≡ bit_number t }
{
    u8::from(t)
}

pub fn mode_of(n: u8) -> Mode
    ensures { result ≡ mode_of n }
{
    match n {
        0 => Mode::Write,
        _ => Mode::Read,
    }
}

pub fn mode_number(m: Mode) -> u8
    ensures { result ≡ mode_number m }
{
    match m {
        Mode::Write => 0,
        Mode::Read => 1,
    }
}

pub fn wiring_of(n: u8) -> Wiring
    ensures { result ≡ wiring_of n }
{
    match n {
        0 => Wiring::Folded,
        _ => Wiring::Open,
    }
}

pub fn wiring_number(w: Wiring) -> u8
    ensures { result ≡ wiring_number w }
{
    match w {
        Wiring::Folded => 0,
        Wiring::Open => 1,
    }
}

pub fn transfer_of(n: u8) -> Transfer
    ensures { result ≡ transfer_of n }
{
    match n {
        0 => Transfer::Word,
        1 => Transfer::Low,
        _ => Transfer::High,
    }
}

pub fn transfer_number(t: Transfer) -> u8
    ensures { result ≡ transfer_number t }
{
    match t {
        Transfer::Word => 0,
        Transfer::Low => 1,
        Transfer::High => 2,
    }
}

// The command of a number, with the transfer beside it.
pub fn command_of(n: u8, transfer: u8) -> Command
    ensures { result ≡ command_of n transfer }
{
    match n {
        0 => Command::Nothing,
        1 => Command::Reset,
        2 => Command::Vsync,
        3 => Command::Cchar,
        4 => Command::Start,
        5 => Command::Zoom,
        6 => Command::Curs,
        7 => Command::Pram,
        8 => Command::Pitch,
        9 => Command::Mask,
        10 => Command::Figs,
        11 => Command::Figd,
        12 => Command::Gchrd,
        13 => Command::Curd,
        14 => Command::Lprd,
        15 => Command::Wdat(transfer_of(transfer)),
        16 => Command::Rdat(transfer_of(transfer)),
        _ => Command::Unknown,
    }
}

pub fn command_number(c: Command) -> u8
    ensures { result ≡ command_number c }
{
    match c {
        Command::Nothing => 0,
        Command::Reset => 1,
        Command::Vsync => 2,
        Command::Cchar => 3,
        Command::Start => 4,
        Command::Zoom => 5,
        Command::Curs => 6,
        Command::Pram => 7,
        Command::Pitch => 8,
        Command::Mask => 9,
        Command::Figs => 10,
        Command::Figd => 11,
        Command::Gchrd => 12,
        Command::Curd => 13,
        Command::Lprd => 14,
        Command::Wdat(_) => 15,
        Command::Rdat(_) => 16,
        Command::Unknown => 17,
    }
}

// The transfer of WDAT and RDAT; 0 beside any other.
pub fn command_transfer(c: Command) -> u8
    ensures { result ≡ command_transfer c }
{
    match c {
        Command::Wdat(t) | Command::Rdat(t) => transfer_number(t),
        _ => 0,
    }
}
