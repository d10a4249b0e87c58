// An entry is sent to the controller: to its port, and then a run.
#![tactic(auto)]

ghost use Rattle.std.specs.Prelude.{◌≡◌, [], ◌∷◌};
ghost use Rattle.registers.specs.State.{state};
ghost use Rattle.ports.specs.Answered.{answered};
ghost use Rattle.sending.specs.Send.{written};
ghost use Rattle.sends.specs.Sends.{listed, list_taken};
ghost use Rattle.sends.specs.Once.{idle_b, at_once_b};

use ports::{Granted, Refusal};
use registers::{Mode, Registers, Work};

// What a list of entries is answered with: the number of refusal, how many entries were taken, the units that their runs reported, and
// the registers.
#[derive(Clone, Copy)]
pub struct Listed {
    pub number: u8,
    pub taken: u64,
    pub units: u64,
    pub regs: Registers,
}

// An entry goes to its port: a byte, and 256 more for a command.
pub fn at_port(r: Registers, e: u64) -> Result<Granted, Refusal>
    ensures { answered r result ≡ written r e }
{
    let byte = (e % 256) as u8;
    if e < 256 {
        return ports::write_parameter(r, byte);
    }
    ports::write_command(r, byte)
}

// What the port leaves. Where it refuses, that is the set given.
pub fn to_port(r: Registers, e: u16) -> Registers
    ensures { result ≡ (written r e).regs }
{
    at_port(r, e as u64).map_or(r, |a| a.regs)
}

// One entry, and the run after it, unless its port refuses it.
pub fn send_one(r: Registers, e: u16, mem: &mut [u16]) -> Listed
    ensures { listed result mem.new ≡ list_taken (state r mem.old) (e ∷ []) }
{
    let a = match at_port(r, e as u64) {
        Ok(a) => a,
        Err(why) => {
            return Listed {
                number: why.number(),
                taken: 0,
                units: 0,
                regs: r,
            };
        }
    };
    let q = units::told(a.regs, units::run(a.regs, mem, u32::MAX));
    Listed {
        number: 0,
        taken: 1,
        units: q.count as u64,
        regs: q.regs,
    }
}

// Nothing is in progress.
fn idle(w: Work) -> bool
    ensures { result ≡ idle_b w }
{
    matches!(w, Work::Idle)
}

// The controller waits, and takes the entry at once.
pub fn at_once(m: Mode, w: Work, held: u8, e: u16) -> bool
    ensures { result ≡ at_once_b m w held e }
{
    (m == Mode::Write) & idle(w) & (held == 0) & (e != 256) & (e < 512)
}
