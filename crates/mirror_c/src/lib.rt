// The archive for C, x86-64: each entry of crate mirror under the name that the header (include/kranichseil.h) gives it, with its clauses.
#![tactic(auto)]

ghost use Rattle.std.specs.Prelude.{◌≡◌};
ghost use Rattle.registers.specs.Fresh.{fresh_set};
ghost use Rattle.registers.specs.State.{state};
ghost use Rattle.units.specs.Run.{run_done};
ghost use Rattle.ports.specs.Port.{command_written, parameter_written, byte_read, status_read, pen_posted};
ghost use Rattle.sending.specs.Send.{written};
ghost use Rattle.sends.specs.Sends.{list_sent};
ghost use Rattle.sheets.specs.Sheet.{translate_def};
ghost use Rattle.costs.specs.Cost.{cost_def};
ghost use Rattle.plain.specs.Mirror.{from_plain, to_plain};
ghost use Rattle.bus.specs.Asked.{asked, read_from};
ghost use Rattle.mirror.specs.Asked.{replied};
ghost use Rattle.mirror.specs.Asked.{plained, ran_on, report, told, costed};
ghost use Rattle.mirror.specs.Asked.{sent_on, tallied};

use bus::PlainAnswer;
use mirror::{PlainCost, PlainRan, PlainReply, PlainReport, PlainTally, PlainTranslation};
use plain::PlainRegisters;

// The fresh set.
#[unsafe(no_mangle)]
pub extern "C" fn kranichseil_fresh() -> PlainRegisters
    ensures { result ≡ to_plain fresh_set }
{
    mirror::kranichseil_fresh()
}

// A byte to the command port.
#[unsafe(no_mangle)]
pub extern "C" fn kranichseil_command(r: PlainRegisters, byte: u8) -> PlainAnswer
    ensures { result ≡ asked r (command_written (from_plain r) byte) }
{
    mirror::kranichseil_command(r, byte)
}

// A byte to the parameter port.
#[unsafe(no_mangle)]
pub extern "C" fn kranichseil_parameter(r: PlainRegisters, byte: u8) -> PlainAnswer
    ensures { result ≡ asked r (parameter_written (from_plain r) byte) }
{
    mirror::kranichseil_parameter(r, byte)
}

// A byte is read.
#[unsafe(no_mangle)]
pub extern "C" fn kranichseil_read(r: PlainRegisters) -> PlainAnswer
    ensures { result ≡ asked r (byte_read (from_plain r)) }
{
    mirror::kranichseil_read(r)
}

// The status is read.
#[unsafe(no_mangle)]
pub extern "C" fn kranichseil_status(r: PlainRegisters) -> PlainAnswer
    ensures { result ≡ asked r (status_read (from_plain r)) }
{
    mirror::kranichseil_status(r)
}

// A light-pen address is posted.
#[unsafe(no_mangle)]
pub extern "C" fn kranichseil_pen(r: PlainRegisters, address: u32) -> PlainAnswer
    ensures { result ≡ asked r (pen_posted (from_plain r) address) }
{
    mirror::kranichseil_pen(r, address)
}

// A byte to a port of the registers where they stand.
#[unsafe(no_mangle)]
pub extern "C" fn kranichseil_board_write(r: &mut PlainRegisters, entry: u16) -> PlainReply
    ensures { replied result r.new ≡ asked r.old (written (from_plain r.old) entry) }
{
    mirror::kranichseil_board_write(r, entry)
}

// A byte from a port of the registers where they stand.
#[unsafe(no_mangle)]
pub extern "C" fn kranichseil_board_read(r: &mut PlainRegisters, port: u8) -> PlainReply
    ensures { replied result r.new ≡ asked r.old (read_from port (from_plain r.old)) }
{
    mirror::kranichseil_board_read(r, port)
}

// The run, by value.
#[unsafe(no_mangle)]
pub extern "C" fn kranichseil_run(r: PlainRegisters, mem: &mut [u16], budget: u32) -> PlainRan
    ensures { plained result mem.new ≡ ran_on r mem.old (run_done budget (state (from_plain r) mem.old)) }
{
    mirror::kranichseil_run(r, mem, budget)
}

// The run on the registers where they stand.
#[unsafe(no_mangle)]
pub extern "C" fn kranichseil_board_run(
    r: &mut PlainRegisters,
    mem: &mut [u16],
    budget: u32,
) -> PlainReport
    ensures { report result r.new mem.new
        ≡ ran_on r.old mem.old (run_done budget (state (from_plain r.old) mem.old)) }
{
    mirror::kranichseil_board_run(r, mem, budget)
}

// A list of entries sent to the registers where they stand.
#[unsafe(no_mangle)]
pub extern "C" fn kranichseil_board_send(
    r: &mut PlainRegisters,
    entries: &[u16],
    mem: &mut [u16],
) -> PlainTally
    ensures { tallied result r.new mem.new
        ≡ sent_on r.old mem.old
        (list_sent (state (from_plain r.old) mem.old) entries.now) }
{
    mirror::kranichseil_board_send(r, entries, mem)
}

// The sheet becomes entries at the output's start, for a plane of P words by H lines and a glyph table.
#[unsafe(no_mangle)]
pub extern "C" fn kranichseil_translate(
    sheet: &[u8],
    p: u32,
    h: u32,
    glyphs: &[u8],
    out: &mut [u16],
) -> PlainTranslation
    ensures { told result out.new ≡ translate_def sheet.now p h glyphs.now out.old }
{
    mirror::kranichseil_translate(sheet, p, h, glyphs, out)
}

// What the sheet costs, for a plane of P words by H lines and a glyph table; nothing is sent.
#[unsafe(no_mangle)]
pub extern "C" fn kranichseil_cost(sheet: &[u8], p: u32, h: u32, glyphs: &[u8]) -> PlainCost
    ensures { costed result ≡ cost_def sheet.now p h glyphs.now }
{
    mirror::kranichseil_cost(sheet, p, h, glyphs)
}
