// A record of the bus, replayed: a list of events, each an entry for a port, so many units, or a run until the controller is idle.
#![tactic(auto)]

ghost use Rattle.std.specs.Prelude.{◌≡◌, min, ◌≤◌, length};
ghost use Rattle.registers.specs.State.{state};
ghost use Rattle.finishing.specs.Finish.{outcome as runs};
ghost use Rattle.replaying.specs.Replay.{runs_of, outcome, all_done, most_replayed, replayed};

use finishing::Sent;
use registers::Registers;

// What a list of events is answered with: the number of refusal, how many events were taken, the units that were done, and the
// registers.
#[derive(Clone, Copy)]
pub struct Replayed {
    pub number: u8,
    pub taken: u64,
    pub units: u64,
    pub regs: Registers,
}

// n units are the event UNITS_MARK + n, "until idle" is IDLE_MARK; a number below both is an entry.
const UNITS_MARK: u64 = 4294967296;

const IDLE_MARK: u64 = 8589934592;

// At most so many events of a list are looked at.
const MOST_REPLAYED: usize = 4194304;

// An event that is no entry: so many units, or until idle. The run's Result is matched here, since by its answer in numbers a line of
// units took a tenth more instructions.
fn run_event(r: Registers, e: u64, mem: &mut [u16]) -> Sent
    ensures { runs result mem.new ≡ runs_of (state r mem.old) e }
{
    if e < IDLE_MARK {
        return match units::run(r, mem, (e % UNITS_MARK) as u32) {
            Ok(q) => Sent {
                regs: q.regs,
                units: q.count as u64,
            },
            Err(_) => Sent { regs: r, units: 0 },
        };
    }
    finishing::finish(r, mem)
}

// The events in order, up to the first that its port refuses.
fn replay_on(r: Registers, events: &[u64], mem: &mut [u16]) -> Replayed
    requires { length events.now ≤ most_replayed }
    ensures { outcome result mem.new ≡ all_done (state r mem.old) events.now }
{
    let mut s = r;
    let mut units: u64 = 0;
    for (k, &e) in events.iter().enumerate() {
        if e < UNITS_MARK {
            match sends::at_port(s, e) {
                Ok(a) => s = a.regs,
                Err(why) => {
                    return Replayed {
                        number: why.number(),
                        taken: k as u64,
                        units,
                        regs: s,
                    };
                }
            }
        } else {
            let q = run_event(s, e, mem);
            units += q.units;
            s = q.regs;
        }
    }
    Replayed {
        number: 0,
        taken: events.len() as u64,
        units,
        regs: s,
    }
}

// How many events of a list are looked at.
fn looked_at(all: usize) -> usize
    ensures { result ≡ min most_replayed all }
{
    all.min(MOST_REPLAYED)
}

// A list of events: the run's refusals 1 and 2, else the events.
pub fn replay(r: Registers, events: &[u64], mem: &mut [u16]) -> Replayed
    ensures { outcome result mem.new ≡ replayed (state r mem.old) events.now }
{
    if let Err(why) = units::accepted(r, mem.len()) {
        return Replayed {
            number: u8::from(why),
            taken: 0,
            units: 0,
            regs: r,
        };
    }
    let n = looked_at(events.len());
    replay_on(r, &events[..n], mem)
}
