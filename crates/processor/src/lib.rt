// The command processor: what an entry does when it is taken from the buffer.
#![tactic(auto, unfolding(crate::specs::Entry::entry_taken))]

ghost use Rattle.std.specs.Prelude.{◌≡◌};
ghost use Rattle.registers.specs.State.{state};
ghost use Rattle.processor.specs.Entry.{entry_taken};

use registers::Registers;

pub mod command;
pub mod parameter;

// An entry is taken: a command, or the next parameter of the command in progress.
pub fn entry_taken(r: Registers, e: u16, mem: &mut [u16]) -> Registers
    ensures { state result mem.new ≡ entry_taken e (state r mem.old) }
{
    let byte = (e % 256) as u8;
    if e < 256 {
        parameter::parameter_taken(r, byte, mem)
    } else {
        command::command_taken(r, byte)
    }
}
