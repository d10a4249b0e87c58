// A byte to a port and from one, by the plain numbers: where the buffer alone changes, nothing else is converted or touched.
#![tactic(auto)]

ghost use Rattle.std.specs.Prelude.{◌≡◌};
ghost use Rattle.plain.specs.Mirror.{from_plain};
ghost use Rattle.sending.specs.Send.{written};
ghost use Rattle.status.specs.Status.{status_of};
ghost use Rattle.ports.specs.Port.{command_written};
ghost use Rattle.bus.specs.Asked.{answer_plain, refused_plain, asked, read_from};
ghost use Rattle.bus.specs.Bytes.{
  granted_plain,
  reset_plain,
  turned_plain,
  turns_b,
  queued_buffer,
  held_written,
  held,
  written_held,
  held_read,
  read_held,
  answer_held,
};

use plain::{PlainBuffer, PlainProgress, PlainRegisters, PlainVideo};
use ports::Answer;
use registers::{Buffer, Work};

// What a port answers.
#[repr(C)]
#[derive(Clone, Copy)]
pub struct PlainAnswer {
    pub number: u8,
    pub value: u8,
    pub regs: PlainRegisters,
}

impl From<Answer> for PlainAnswer {
    ghost from_gives = { λ a p. p ≡ answer_plain a };

    fn from(a: Answer) -> PlainAnswer {
        PlainAnswer {
            number: a.number,
            value: a.value,
            regs: a.regs.into(),
        }
    }
}

// No register set: 1, with the set given.
pub fn refuse(p: PlainRegisters) -> PlainAnswer
    ensures { result ≡ refused_plain p }
{
    PlainAnswer {
        number: 1,
        value: 0,
        regs: p,
    }
}

// What a port answers that changes the buffer alone.
#[derive(Clone, Copy)]
struct Held {
    number: u8,
    value: u8,
    buffer: PlainBuffer,
}

impl Held {
    fn new(number: u8, value: u8, buffer: PlainBuffer) -> Held
        ensures { result ≡ held number value buffer }
    {
        Held {
            number,
            value,
            buffer,
        }
    }
}

// What acts on more than the buffer: RESET, and any command in read mode; and an entry past nine bits.
fn turns(mode: u8, e: u16) -> bool
    ensures { result ≡ turns_b mode e }
{
    if e < 256 {
        return false;
    }
    (mode != 0) | (e == 256) | (512 <= e)
}

fn queue(b: PlainBuffer, e: u16) -> PlainBuffer
    ensures { result ≡ queued_buffer b e }
{
    registers::push(b.into(), e).into()
}

fn held_written(mode: u8, b: PlainBuffer, e: u16) -> Held
    ensures { result ≡ held_written mode b e }
{
    if mode != 0 {
        return Held::new(4, 0, b);
    }
    if registers::PLACES <= b.count {
        return Held::new(3, 0, b);
    }
    Held::new(0, 0, queue(b, e))
}

// After RESET: "buffer emptied, write mode, figure or read ended where it stands, display off".
fn reset_plain(p: PlainRegisters) -> PlainRegisters
    ensures { result ≡ reset_plain p }
{
    PlainRegisters {
        video: PlainVideo {
            display: 0,
            ..p.video
        },
        mode: 0,
        buffer: processor::command::no_entries().into(),
        progress: PlainProgress {
            command: 1,
            transfer: 0,
            next: 0,
            low: 0,
        },
        work: Work::Idle.into(),
        remaining: 0,
        ..p
    }
}

// A command in read mode: write mode, all read data discarded and the read ended, and the command in the buffer.
fn turned_plain(p: PlainRegisters, e: u16) -> PlainRegisters
    ensures { result ≡ turned_plain p e }
{
    PlainRegisters {
        mode: 0,
        buffer: queue(processor::command::no_entries().into(), e),
        work: Work::Idle.into(),
        ..p
    }
}

// All registers but the buffer stay.
fn answer_held(p: PlainRegisters, h: Held) -> PlainAnswer
    ensures { result ≡ answer_held p h }
{
    PlainAnswer {
        number: h.number,
        value: h.value,
        regs: PlainRegisters {
            buffer: h.buffer,
            ..p
        },
    }
}

fn grant(p: PlainRegisters) -> PlainAnswer
    ensures { result ≡ granted_plain p }
{
    PlainAnswer {
        number: 0,
        value: 0,
        regs: p,
    }
}

// A byte to the command port.
pub fn command(r: PlainRegisters, byte: u8) -> PlainAnswer
    ensures { result ≡ asked r (command_written (from_plain r) byte) }
{
    if !forms::fits(r) {
        return refuse(r);
    }
    if byte == 0 {
        return grant(reset_plain(r));
    }
    let e = byte as u16 + registers::COMMAND_MARK;
    if r.mode != 0 {
        return grant(turned_plain(r, e));
    }
    answer_held(r, held_written(0, r.buffer, e))
}

// The same of a set that may be unsound, or none.
fn written_held(p: PlainRegisters, e: u16) -> Held
    ensures { result ≡ written_held p e }
{
    if forms::fits(p) {
        return held_written(p.mode, p.buffer, e);
    }
    Held::new(1, 0, p.buffer)
}

// A byte to its port, and 256 more for the command port.
pub fn write_plain(p: PlainRegisters, e: u16) -> PlainAnswer
    ensures { result ≡ asked p (written (from_plain p) e) }
{
    let mut number = 0;
    let mut regs = p;
    if turns(p.mode, e) {
        let a = command(p, (e % 256) as u8);
        number = a.number;
        regs = a.regs;
    } else {
        let h = written_held(p, e);
        number = h.number;
        regs.buffer = h.buffer;
    }
    PlainAnswer {
        number,
        value: 0,
        regs,
    }
}

// The status, of what it looks at.
fn status_plain(p: PlainRegisters) -> u8
    ensures { result ≡ status_of (from_plain p) }
{
    let drawing = (p.work.kind != 0) & (p.work.kind != 3);
    status::status_by(
        plain::numbers::bit_of(p.pen.set),
        drawing,
        p.buffer.count,
        p.mode != 0,
    )
}

// The oldest byte read, where there is one.
fn held_read(mode: u8, b: PlainBuffer) -> Held
    ensures { result ≡ held_read mode b }
{
    if (mode == 0) | (b.count == 0) {
        return Held::new(5, 0, b);
    }
    let bytes = Buffer::from(b);
    let oldest = registers::oldest_of(bytes);
    Held::new(0, (oldest % 256) as u8, registers::pop(bytes).into())
}

// A port is read, of a set that may be unsound, or none.
fn read_held(p: PlainRegisters, port: u8) -> Held
    ensures { result ≡ read_held p port }
{
    if !forms::fits(p) {
        return Held::new(1, 0, p.buffer);
    }
    if port == 0 {
        return Held::new(0, status_plain(p), p.buffer);
    }
    held_read(p.mode, p.buffer)
}

// A byte from a port: 0 the status, any other the oldest byte read. It is compiled into each call, so that no set is handed on.
#[inline(always)]
pub fn read_plain(p: PlainRegisters, port: u8) -> PlainAnswer
    ensures { result ≡ asked p (read_from port (from_plain p)) }
{
    answer_held(p, read_held(p, port))
}
