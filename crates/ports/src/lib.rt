// The two ports, the status read at one, and the light pen.
#![tactic(auto)]

ghost use Rattle.std.specs.Prelude.{◌≡◌, ◌&&◌, ◌+◌, ◌*◌, eqb, ltb, cond, Ok, Err};
ghost use Rattle.registers.specs.Width.{places};
ghost use Rattle.registers.specs.Sound.{sound_b};
ghost use Rattle.registers.specs.Put.{put_buffer};
ghost use Rattle.registers.specs.Buffer.{popped};
ghost use Rattle.ports.specs.declared.Refusal.TheVariants.{Unsound};
ghost use Rattle.ports.specs.Answered.{refusal_number, answered};
ghost use Rattle.ports.specs.Port.{
  queued,
  turned_back,
  queued_or3,
  command_in,
  command_written,
  parameter_in,
  parameter_written,
  byte_in,
  byte_read,
  status_read,
  pen_put,
  pen_posted,
};

use registers::{Mode, Pen, Registers, Work};

// Why a port refuses: the set is unsound; the buffer is full; a parameter byte in read mode; no byte to give; a pen address too large.
#[derive(Clone, Copy, PartialEq, Eq)]
pub enum Refusal {
    Unsound,
    Full,
    Reading,
    NoByte,
    PenAddress,
}

// What a port grants: the byte read, and the registers.
#[derive(Clone, Copy)]
pub struct Granted {
    pub value: u8,
    pub regs: Registers,
}

// An answer in numbers, as it is printed and as C has it: a number of refusal or 0, the byte read, and the registers.
#[derive(Clone, Copy)]
pub struct Answer {
    pub number: u8,
    pub value: u8,
    pub regs: Registers,
}

impl Refusal {
    // The number of a refusal.
    pub fn number(self) -> u8
        ensures { result ≡ refusal_number self }
    {
        match self {
            Refusal::Unsound => 1,
            Refusal::Full => 3,
            Refusal::Reading => 4,
            Refusal::NoByte => 5,
            Refusal::PenAddress => 6,
        }
    }
}

// A port's answer in numbers; a refusal's has the set given, and 0. It is compiled into each call, so that no set is handed on.
#[inline(always)]
pub fn told(given: Registers, a: Result<Granted, Refusal>) -> Answer
    ensures { result ≡ answered given a }
{
    match a {
        Ok(Granted { value, regs }) => Answer {
            number: 0,
            value,
            regs,
        },
        Err(why) => Answer {
            number: why.number(),
            value: 0,
            regs: given,
        },
    }
}

// Only a sound set is accepted.
fn accepted(r: Registers) -> Result<(), Refusal>
    ensures { result ≡ cond (sound_b r) (Ok tt) (Err Unsound) }
{
    if registers::sound(r) {
        Ok(())
    } else {
        Err(Refusal::Unsound)
    }
}

// An entry more is queued.
fn queue(mut r: Registers, e: u16) -> Registers
    ensures { result ≡ queued r e }
{
    r.buffer = registers::push(r.buffer, e);
    r
}

// Write mode, with all read data discarded and the read ended.
fn turn_back(r: Registers) -> Registers
    ensures { result ≡ turned_back r }
{
    Registers {
        mode: Mode::Write,
        buffer: processor::command::no_entries(),
        work: Work::Idle,
        ..r
    }
}

// An entry is queued where there is room.
#[tactic(auto, unfolding(crate::specs::Port::queued_or3))]
fn queue_where_room(r: Registers, e: u16) -> Result<Granted, Refusal>
    ensures { answered r result ≡ queued_or3 r e }
{
    if registers::PLACES <= r.buffer.count {
        return Err(Refusal::Full);
    }
    Ok(Granted {
        value: 0,
        regs: queue(r, e),
    })
}

fn command_in(r: Registers, byte: u8) -> Result<Granted, Refusal>
    ensures { answered r result ≡ command_in r.mode r byte }
{
    match r.mode {
        Mode::Write => queue_where_room(r, byte as u16 + registers::COMMAND_MARK),
        Mode::Read => Ok(Granted {
            value: 0,
            regs: queue(turn_back(r), byte as u16 + registers::COMMAND_MARK),
        }),
    }
}

// A byte to the command port.
#[tactic(auto, unfolding(crate::specs::Port::command_written))]
pub fn write_command(r: Registers, byte: u8) -> Result<Granted, Refusal>
    ensures { answered r result ≡ command_written r byte }
{
    accepted(r)?;
    if byte == 0 {
        return Ok(Granted {
            value: 0,
            regs: processor::command::reset_done(r),
        });
    }
    command_in(r, byte)
}

fn parameter_in(r: Registers, byte: u8) -> Result<Granted, Refusal>
    ensures { answered r result ≡ parameter_in r.mode r byte }
{
    match r.mode {
        Mode::Write => queue_where_room(r, byte as u16),
        Mode::Read => Err(Refusal::Reading),
    }
}

// A byte to the parameter port.
#[tactic(auto, unfolding(crate::specs::Port::parameter_written))]
pub fn write_parameter(r: Registers, byte: u8) -> Result<Granted, Refusal>
    ensures { answered r result ≡ parameter_written r byte }
{
    accepted(r)?;
    parameter_in(r, byte)
}

// The buffer without its oldest byte.
fn drop_oldest(mut r: Registers) -> Registers
    ensures { result ≡ put_buffer r (popped r.buffer) }
{
    r.buffer = registers::pop(r.buffer);
    r
}

fn byte_in(r: Registers) -> Result<Granted, Refusal>
    ensures { answered r result ≡ byte_in r.mode r }
{
    match r.mode {
        Mode::Read if 0 < r.buffer.count => {
            let oldest = registers::oldest_of(r.buffer);
            Ok(Granted {
                value: (oldest % 256) as u8,
                regs: drop_oldest(r),
            })
        }
        Mode::Read | Mode::Write => Err(Refusal::NoByte),
    }
}

// A byte is read.
#[tactic(auto, unfolding(crate::specs::Port::byte_read))]
pub fn read_byte(r: Registers) -> Result<Granted, Refusal>
    ensures { answered r result ≡ byte_read r }
{
    accepted(r)?;
    byte_in(r)
}

// The status is read.
#[tactic(auto, unfolding(crate::specs::Port::status_read))]
pub fn read_status(r: Registers) -> Result<Granted, Refusal>
    ensures { answered r result ≡ status_read r }
{
    accepted(r)?;
    Ok(Granted {
        value: status::status_of(r),
        regs: r,
    })
}

// The light pen's address, as news.
fn put_pen(mut r: Registers, address: u32) -> Registers
    ensures { result ≡ pen_put r address }
{
    r.pen = Pen { address, set: true };
    r
}

// A light-pen address is posted.
#[tactic(auto, unfolding(crate::specs::Port::pen_posted))]
pub fn post_pen(r: Registers, address: u32) -> Result<Granted, Refusal>
    ensures { answered r result ≡ pen_posted r address }
{
    accepted(r)?;
    if dots::ADDRESSES <= address {
        return Err(Refusal::PenAddress);
    }
    Ok(Granted {
        value: 0,
        regs: put_pen(r, address),
    })
}
