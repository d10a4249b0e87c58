// The controller and the translator over the register set in plain numbers: a function for every entry. Crate mirror_c exports each to C
// under its name. A set that is no register set (crate plain, `formed`) is refused with 1.
#![tactic(auto)]

ghost use Rattle.std.specs.Prelude.{◌≡◌};
ghost use Rattle.registers.specs.Fresh.{fresh_set};
ghost use Rattle.registers.specs.State.{state};
ghost use Rattle.units.specs.Run.{run_done};
ghost use Rattle.ports.specs.Port.{command_written, parameter_written, byte_read, status_read, pen_posted};
ghost use Rattle.sending.specs.Send.{written};
ghost use Rattle.sends.specs.Sends.{list_sent};
ghost use Rattle.sheets.specs.Sheet.{translate_def};
ghost use Rattle.costs.specs.Cost.{cost_def};
ghost use Rattle.plain.specs.Mirror.{from_plain, to_plain};
ghost use Rattle.bus.specs.Asked.{asked, read_from};
ghost use Rattle.mirror.specs.Asked.{reply_of, replied};
ghost use Rattle.mirror.specs.Asked.{plained, ran_on, ran_plain, report_of, report, told, costed};
ghost use Rattle.mirror.specs.Asked.{delivered, sent_on, sent_plain, tally_of, tallied};

use bus::PlainAnswer;
use plain::PlainRegisters;
use sends::Listed;
use units::Ran;

// What a port answers by reference.
#[repr(C)]
#[derive(Clone, Copy)]
pub struct PlainReply {
    pub number: u8,
    pub value: u8,
}

// What a run answers.
#[repr(C)]
#[derive(Clone, Copy)]
pub struct PlainRan {
    pub number: u8,
    pub count: u32,
    pub why: u8,
    pub regs: PlainRegisters,
}

// What a run by reference answers.
#[repr(C)]
#[derive(Clone, Copy)]
pub struct PlainReport {
    pub number: u8,
    pub count: u32,
    pub why: u8,
}

// What a list of entries answers.
#[repr(C)]
#[derive(Clone, Copy)]
pub struct PlainSent {
    pub number: u8,
    pub taken: u64,
    pub units: u64,
    pub regs: PlainRegisters,
}

// What a list of entries answers by reference.
#[repr(C)]
#[derive(Clone, Copy)]
pub struct PlainTally {
    pub number: u8,
    pub taken: u64,
    pub units: u64,
}

// What a translation answers.
#[repr(C)]
#[derive(Clone, Copy)]
pub struct PlainTranslation {
    pub number: u8,
    pub first: u32,
    pub second: u32,
}

// What a cost answers.
#[repr(C)]
#[derive(Clone, Copy)]
pub struct PlainCost {
    pub number: u8,
    pub first: u32,
    pub second: u32,
    pub figures: u32,
    pub units: u64,
}

// A run's answer and a list's, in plain numbers.
impl From<Ran> for PlainRan {
    ghost from_gives = { λ d q. q ≡ ran_plain d };

    fn from(d: Ran) -> PlainRan {
        PlainRan {
            number: d.number,
            count: d.count,
            why: d.why,
            regs: d.regs.into(),
        }
    }
}

impl From<Listed> for PlainSent {
    ghost from_gives = { λ d q. q ≡ sent_plain d };

    fn from(d: Listed) -> PlainSent {
        PlainSent {
            number: d.number,
            taken: d.taken,
            units: d.units,
            regs: d.regs.into(),
        }
    }
}

// Each without its registers, and a port's.
impl From<PlainAnswer> for PlainReply {
    ghost from_gives = { λ d q. q ≡ reply_of d };

    fn from(d: PlainAnswer) -> PlainReply {
        PlainReply {
            number: d.number,
            value: d.value,
        }
    }
}

impl From<PlainRan> for PlainReport {
    ghost from_gives = { λ d q. q ≡ report_of d };

    fn from(d: PlainRan) -> PlainReport {
        PlainReport {
            number: d.number,
            count: d.count,
            why: d.why,
        }
    }
}

impl From<PlainSent> for PlainTally {
    ghost from_gives = { λ d q. q ≡ tally_of d };

    fn from(d: PlainSent) -> PlainTally {
        PlainTally {
            number: d.number,
            taken: d.taken,
            units: d.units,
        }
    }
}

// The fresh set.
pub fn kranichseil_fresh() -> PlainRegisters
    ensures { result ≡ to_plain fresh_set }
{
    registers::fresh().into()
}

// A byte to the command port.
pub fn kranichseil_command(r: PlainRegisters, byte: u8) -> PlainAnswer
    ensures { result ≡ asked r (command_written (from_plain r) byte) }
{
    bus::command(r, byte)
}

// A byte to the parameter port.
pub fn kranichseil_parameter(r: PlainRegisters, byte: u8) -> PlainAnswer
    ensures { result ≡ asked r (parameter_written (from_plain r) byte) }
{
    if !forms::formed(r) {
        return bus::refuse(r);
    }
    let regs = r.into();
    ports::told(regs, ports::write_parameter(regs, byte)).into()
}

// A byte is read.
pub fn kranichseil_read(r: PlainRegisters) -> PlainAnswer
    ensures { result ≡ asked r (byte_read (from_plain r)) }
{
    bus::read_plain(r, 1)
}

// The status is read.
pub fn kranichseil_status(r: PlainRegisters) -> PlainAnswer
    ensures { result ≡ asked r (status_read (from_plain r)) }
{
    bus::read_plain(r, 0)
}

// A light-pen address is posted.
pub fn kranichseil_pen(r: PlainRegisters, address: u32) -> PlainAnswer
    ensures { result ≡ asked r (pen_posted (from_plain r) address) }
{
    if !forms::formed(r) {
        return bus::refuse(r);
    }
    let regs = r.into();
    ports::told(regs, ports::post_pen(regs, address)).into()
}

// A byte to a port of the registers where they stand.
pub fn kranichseil_board_write(r: &mut PlainRegisters, entry: u16) -> PlainReply
    ensures { replied result r.new ≡ asked r.old (written (from_plain r.old) entry) }
{
    let done = bus::write_plain(*r, entry);
    *r = done.regs;
    done.into()
}

// A byte from a port of the registers where they stand.
pub fn kranichseil_board_read(r: &mut PlainRegisters, port: u8) -> PlainReply
    ensures { replied result r.new ≡ asked r.old (read_from port (from_plain r.old)) }
{
    let done = bus::read_plain(*r, port);
    *r = done.regs;
    done.into()
}

// The run, by value.
pub fn kranichseil_run(r: PlainRegisters, mem: &mut [u16], budget: u32) -> PlainRan
    ensures { plained result mem.new ≡ ran_on r mem.old (run_done budget (state (from_plain r) mem.old)) }
{
    if !forms::formed(r) {
        return PlainRan {
            number: 1,
            count: 0,
            why: 0,
            regs: r,
        };
    }
    let set = r.into();
    units::told(set, units::run(set, mem, budget)).into()
}

// The run on the registers where they stand.
pub fn kranichseil_board_run(r: &mut PlainRegisters, mem: &mut [u16], budget: u32) -> PlainReport
    ensures { report result r.new mem.new
        ≡ ran_on r.old mem.old (run_done budget (state (from_plain r.old) mem.old)) }
{
    let done = kranichseil_run(*r, mem, budget);
    *r = done.regs;
    done.into()
}

// A list of entries, by value.
fn send_plain(p: PlainRegisters, entries: &[u16], mem: &mut [u16]) -> PlainSent
    ensures { delivered result mem.new
        ≡ sent_on p mem.old (list_sent (state (from_plain p) mem.old) entries.now) }
{
    if !forms::formed(p) {
        return PlainSent {
            number: 1,
            taken: 0,
            units: 0,
            regs: p,
        };
    }
    lists::send_all(p.into(), entries, mem).into()
}

// A list of entries sent to the registers where they stand.
pub fn kranichseil_board_send(
    r: &mut PlainRegisters,
    entries: &[u16],
    mem: &mut [u16],
) -> PlainTally
    ensures { tallied result r.new mem.new
        ≡ sent_on r.old mem.old
        (list_sent (state (from_plain r.old) mem.old) entries.now) }
{
    let done = send_plain(*r, entries, mem);
    *r = done.regs;
    done.into()
}

// The sheet becomes entries at the output's start, for a plane of P words by H lines and a glyph table.
pub fn kranichseil_translate(
    sheet: &[u8],
    p: u32,
    h: u32,
    glyphs: &[u8],
    out: &mut [u16],
) -> PlainTranslation
    ensures { told result out.new ≡ translate_def sheet.now p h glyphs.now out.old }
{
    let a = blocks::told(sheets::translate(sheet, p, h, glyphs, out));
    PlainTranslation {
        number: a.number,
        first: a.first,
        second: a.second,
    }
}

// What the sheet costs, for a plane of P words by H lines and a glyph table; nothing is sent.
pub fn kranichseil_cost(sheet: &[u8], p: u32, h: u32, glyphs: &[u8]) -> PlainCost
    ensures { costed result ≡ cost_def sheet.now p h glyphs.now }
{
    let c = costs::told(costs::cost_of(sheet, p, h, glyphs));
    PlainCost {
        number: c.number,
        first: c.first,
        second: c.second,
        figures: c.figures,
        units: c.units,
    }
}
