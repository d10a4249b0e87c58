// The run with a budget.
#![tactic(auto)]

ghost use Rattle.std.specs.Prelude.{◌≡◌, ◌-◌};
ghost use Rattle.registers.specs.Put.{put_cursor, put_work, put_remaining};
ghost use Rattle.registers.specs.Sound.{sound_b};
ghost use Rattle.registers.specs.State.{state};
ghost use Rattle.units.specs.Unit.{fetched, fetch_by};
ghost use Rattle.units.specs.Stop.{stop_number, reason_number};
ghost use Rattle.units.specs.Run.{waiting, reason_of, length_b, outcome, run_from, run_done};
ghost use Rattle.units.specs.Answered.{refusal_number, ran, answered, accepted_by};

use bursts::Burst;
use dots::Wiring;
use registers::{Buffer, Mode, Registers, Work};
use walks::Brush;

// Why a run stops: its budget is spent, nothing is in progress or queued, or a read awaits room.
#[derive(Clone, Copy, PartialEq, Eq)]
pub enum Stop {
    Spent,
    Idle,
    Full,
}

impl From<Stop> for u8 {
    fn from(why: Stop) -> u8
        ensures { result ≡ stop_number why }
    {
        match why {
            Stop::Spent => 1,
            Stop::Idle => 2,
            Stop::Full => 3,
        }
    }
}

// Why a run is refused: the register set is unsound, or the memory's length is none that its wiring takes.
#[derive(Clone, Copy, PartialEq, Eq)]
pub enum Refusal {
    Unsound,
    Length,
}

impl From<Refusal> for u8 {
    fn from(why: Refusal) -> u8
        ensures { result ≡ refusal_number why }
    {
        match why {
            Refusal::Unsound => 1,
            Refusal::Length => 2,
        }
    }
}

// What a run does: the units done, why it stopped, and the registers.
#[derive(Clone, Copy)]
pub struct Done {
    pub count: u32,
    pub why: Stop,
    pub regs: Registers,
}

// A run's answer in numbers, as it is printed and as C has it: the number of the refusal or 0, the units done, why it stopped, and the
// registers.
#[derive(Clone, Copy)]
pub struct Ran {
    pub number: u8,
    pub count: u32,
    pub why: u8,
    pub regs: Registers,
}

// The answer in numbers of a run on these registers: a refusal leaves them as they were given, and does no unit. It is
// compiled into each call, so that no set is handed on.
#[inline(always)]
pub fn told(r: Registers, done: Result<Done, Refusal>) -> Ran
    ensures { result ≡ answered r done }
{
    match done {
        Ok(Done { count, why, regs }) => Ran {
            number: 0,
            count,
            why: u8::from(why),
            regs,
        },
        Err(why) => Ran {
            number: u8::from(why),
            count: 0,
            why: 0,
            regs: r,
        },
    }
}

// The oldest entry leaves the buffer and is taken.
fn fetch(r: Registers, mem: &mut [u16]) -> Registers
    ensures { state result mem.new ≡ fetched (state r mem.old) }
{
    let mut left = r;
    left.buffer = registers::pop(r.buffer);
    processor::entry_taken(left, registers::oldest_of(r.buffer), mem)
}

// Nothing is in progress: an entry, where one waits in write mode.
fn idle_unit(r: Registers, mem: &mut [u16]) -> Registers
    ensures { state result mem.new ≡ fetch_by r.mode r.buffer.count (state r mem.old) }
{
    match r.mode {
        Mode::Write if r.buffer.count != 0 => fetch(r, mem),
        Mode::Write | Mode::Read => r,
    }
}

// Nothing is in progress: whether an entry waits.
fn waiting_reason(m: Mode, b: Buffer) -> Option<Stop>
    ensures { reason_number result ≡ waiting m b }
{
    match m {
        Mode::Write if b.count != 0 => None,
        Mode::Write => Some(Stop::Idle),
        Mode::Read => Some(Stop::Idle),
    }
}

// Why a run must stop here, if it must.
pub fn reason(r: Registers) -> Option<Stop>
    ensures { reason_number result ≡ reason_of r }
{
    match r.work {
        Work::Idle => waiting_reason(r.mode, r.buffer),
        Work::Figure { .. } | Work::Arc { .. } | Work::Character { .. } => None,
        Work::Reading { transfer, .. } => {
            if figures::reading::room(transfer, r.buffer) {
                return None;
            }
            Some(Stop::Full)
        }
    }
}

// Whether a memory of n words may be wired so: 16 to 262,144 words, and folded a power of two.
pub fn length_right(wiring: Wiring, n: usize) -> bool
    ensures { result ≡ length_b wiring n }
{
    let within = (16 <= n) & (n <= dots::ADDRESSES as usize);
    match wiring {
        Wiring::Folded => within & n.is_power_of_two(),
        Wiring::Open => within,
    }
}

// Refusals 1 and 2: whether a run takes these registers and a memory of so many words.
pub fn accepted(r: Registers, words: usize) -> Result<(), Refusal>
    ensures { result ≡ accepted_by (sound_b r) (length_b r.board.wiring words) }
{
    if !registers::sound(r) {
        return Err(Refusal::Unsound);
    }
    if !length_right(r.board.wiring, words) {
        return Err(Refusal::Length);
    }
    Ok(())
}

// What a figure or a character is drawn with.
fn brush_of(r: Registers) -> Brush
    ensures { result ≡ record {
      wiring = r.board.wiring;
      op = r.op;
      ram = r.ram;
      drawing = r.drawing;
      zoom = r.video.zoom;
      pitch = r.pitch;
    } }
{
    let ram = r.ram;
    Brush {
        wiring: r.board.wiring,
        op: r.op,
        ram,
        drawing: r.drawing,
        zoom: r.video.zoom,
        pitch: r.pitch,
    }
}

// After a burst the figure is elsewhere, or has ended; as many cycles fewer are left as it took.
fn after_burst(r: Registers, q: Burst) -> Registers
    ensures { result ≡ put_remaining (put_work (put_cursor r q.cursor) q.work) (r.remaining - q.count) }
{
    Registers {
        cursor: q.cursor,
        work: q.work,
        remaining: r.remaining.saturating_sub(u64::from(q.count)),
        ..r
    }
}

// Units until the budget is spent or there is a reason to stop: of a figure, an arc and a character many at once.
pub fn run_on(r: Registers, mem: &mut [u16], budget: u32) -> Done
    ensures { outcome (ran result) mem.new ≡ run_from budget 0 (state r mem.old) }
{
    let mut s = r;
    let mut n: u32 = 0;
    while n < budget {
        if let Some(why) = reason(s) {
            return Done {
                count: n,
                why,
                regs: s,
            };
        }
        // Each arm makes its brush and takes the burst's end by itself: joined, a unit without a burst worked the brush out as well.
        match s.work {
            Work::Figure { dot, d } => {
                let q = bursts::figure(mem, brush_of(s), s.cursor, dot, d, budget - n);
                s = after_burst(s, q);
                n += q.count;
            }
            Work::Arc { cycle, running } => {
                let q = sweeps::arc(mem, brush_of(s), s.cursor, cycle, running, budget - n);
                s = after_burst(s, q);
                n += q.count;
            }
            Work::Character { row, column, start } => {
                let b = brush_of(s);
                let q = bursts::character(mem, b, s.cursor, row, column, start, budget - n);
                s = after_burst(s, q);
                n += q.count;
            }
            Work::Reading { item, transfer } => {
                s = figures::reading::read_unit(s, item, transfer, mem);
                n += 1;
            }
            Work::Idle => {
                s = idle_unit(s, mem);
                n += 1;
            }
        }
    }
    Done {
        count: n,
        why: Stop::Spent,
        regs: s,
    }
}

// The run: refusals 1 and 2, else units.
pub fn run(r: Registers, mem: &mut [u16], budget: u32) -> Result<Done, Refusal>
    ensures { outcome (answered r result) mem.new ≡ run_done budget (state r mem.old) }
{
    accepted(r, mem.len())?;
    Ok(run_on(r, mem, budget))
}
