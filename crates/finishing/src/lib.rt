// What was waiting or in progress is finished: the controller is run as often as it takes.
#![tactic(auto)]

ghost use Rattle.std.specs.Prelude.{◌≡◌};
ghost use Rattle.registers.specs.State.{state};
ghost use Rattle.finishing.specs.Finish.{outcome, finished};

use registers::Registers;
use units::Stop;

// The registers after runs, and the units that these reported.
#[derive(Clone, Copy)]
pub struct Sent {
    pub regs: Registers,
    pub units: u64,
}

// So many runs are more than anything takes.
const MOST_RUNS: u32 = 272;

// The controller is run until a run does not say that its budget is spent: what was waiting or in progress is finished.
pub fn finish(r: Registers, mem: &mut [u16]) -> Sent
    ensures { outcome result mem.new ≡ finished (state r mem.old) }
{
    let mut regs = r;
    let mut units: u64 = 0;
    for done in 0..MOST_RUNS {
        let Ok(q) = units::run(regs, mem, u32::MAX) else {
            break;
        };
        units += q.count as u64;
        regs = q.regs;
        if q.why != Stop::Spent {
            break;
        }
    }
    Sent { regs, units }
}
