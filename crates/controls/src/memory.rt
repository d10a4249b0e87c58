// The lines to the memory, and the run over it.
ghost use Rattle.std.specs.Prelude.{◌≡◌};
ghost use Rattle.units.specs.Run.{outcome as ranOutcome};
ghost use Rattle.controls.specs.Memory.{
  outcome,
  put,
  cleared_first,
  fresh_letter,
  fresh_done,
  word_done,
  run_within,
  run_told,
  memory_done,
};

use console::desk::Reply;
use dots::Wiring;
use orders::Memory;
use registers::Registers;
use units::Ran;

// What such a line does: the registers and the memory's length after it, and its answer.
#[derive(Clone, Copy)]
pub struct Worked {
    pub regs: Registers,
    pub words: usize,
    pub reply: Reply,
}

#[tactic(auto, unfolding(crate::specs::Memory::cleared_first))]
fn clear_first(mem: &mut [u16], words: usize)
    ensures { mem.new ≡ cleared_first words mem.old }
{
    let n = buffers::used(words, mem);
    buffers::clear(&mut mem[..n]);
}

// The line that asks for a memory of that wiring.
fn fresh_letter(w: Wiring) -> u8
    ensures { result ≡ fresh_letter w }
{
    match w {
        Wiring::Folded => b'M',
        Wiring::Open => b'O',
    }
}

// `M n`, `O n`: fresh registers, so wired, and a memory of n zero words.
#[tactic(auto, unfolding(crate::specs::Memory::fresh_done))]
fn fresh(w: Wiring, r: Registers, words: usize, n: u64, mem: &mut [u16]) -> Worked
    ensures { outcome result mem.new ≡ fresh_done w r words n mem.old }
{
    let wanted = n as usize;
    let letter = fresh_letter(w);
    if !units::length_right(w, wanted) {
        return Worked {
            regs: r,
            words,
            reply: Reply::One(letter, 2),
        };
    }
    clear_first(mem, wanted);
    Worked {
        regs: wirings::wired(registers::fresh(), w),
        words: wanted,
        reply: Reply::One(letter, 0),
    }
}

// `W a v`: a word of the memory.
#[tactic(auto, unfolding(crate::specs::Memory::word_done))]
fn word(words: usize, a: u64, v: u16, mem: &mut [u16]) -> Reply
    ensures { put result mem.new ≡ word_done words a v mem.old }
{
    let at = a as usize;
    if words <= at {
        return Reply::Unknown;
    }
    buffers::store(mem, at, v);
    Reply::One(b'W', 0)
}

// A run over the words that the memory has.
#[tactic(auto, unfolding(crate::specs::Memory::run_within))]
fn run_within(r: Registers, mem: &mut [u16], words: usize, budget: u32) -> Ran
    ensures { ranOutcome result mem.new ≡ run_within r mem.old words budget }
{
    let n = buffers::used(words, mem);
    units::told(r, units::run(r, &mut mem[..n], budget))
}

// `U n`
fn run(a: Ran, words: usize) -> Worked
    ensures { result ≡ run_told a words }
{
    Worked {
        regs: a.regs,
        words,
        reply: Reply::Three(b'U', a.number as u64, a.count as u64, a.why as u64),
    }
}

// What a line to the memory does.
#[tactic(auto, unfolding(crate::specs::Memory::memory_done))]
pub fn memory_done(r: Registers, words: usize, m: Memory, mem: &mut [u16]) -> Worked
    ensures { outcome result mem.new ≡ memory_done r words m mem.old }
{
    match m {
        Memory::Fresh(w, n) => fresh(w, r, words, n, mem),
        Memory::Run(n) => run(run_within(r, mem, words, n), words),
        Memory::Word(a, v) => Worked {
            regs: r,
            words,
            reply: word(words, a, v, mem),
        },
    }
}
