// The board calls: a run on the register set where it stands, and a list of entries sent to it.
#![tactic(auto)]

ghost use Rattle.std.specs.Prelude.{◌≡◌};
ghost use Rattle.registers.specs.State.{state};
ghost use Rattle.units.specs.Run.{run_done};
ghost use Rattle.sends.specs.Sends.{list_sent};
ghost use Rattle.board.specs.Board.{report, report_of, tallied, tally_of};

use registers::Registers;
use sends::Listed;
use units::Ran;

// What a board call answers: a number of refusal, the units done, and why it stopped.
#[derive(Clone, Copy)]
pub struct Report {
    pub number: u8,
    pub count: u32,
    pub why: u8,
}

// A run's answer without its registers.
impl From<Ran> for Report {
    ghost from_gives = { λ d q. q ≡ report_of d };

    fn from(d: Ran) -> Report {
        Report {
            number: d.number,
            count: d.count,
            why: d.why,
        }
    }
}

// The run by value, on what stands behind the reference; its registers are stored back there.
pub fn board_run(r: &mut Registers, mem: &mut [u16], budget: u32) -> Report
    ensures { report result r.new mem.new ≡ run_done budget (state r.old mem.old) }
{
    let done = units::told(*r, units::run(*r, mem, budget));
    *r = done.regs;
    done.into()
}

// What a list of entries answers: a number of refusal, how many entries were taken, and the units of their runs.
#[derive(Clone, Copy)]
pub struct Tally {
    pub number: u8,
    pub taken: u64,
    pub units: u64,
}

// A list's answer without its registers.
impl From<Listed> for Tally {
    ghost from_gives = { λ d q. q ≡ tally_of d };

    fn from(d: Listed) -> Tally {
        Tally {
            number: d.number,
            taken: d.taken,
            units: d.units,
        }
    }
}

// A list of entries sent by value, to what stands behind the reference; the registers are stored back there.
pub fn board_send(r: &mut Registers, entries: &[u16], mem: &mut [u16]) -> Tally
    ensures { tallied result r.new mem.new
        ≡ list_sent (state r.old mem.old) entries.now }
{
    let done = lists::send_all(*r, entries, mem);
    *r = done.regs;
    done.into()
}
