// What a unit of what is in progress is made of: the dots of a figure and of a character; an item of a read.
#![tactic(auto)]

ghost use Rattle.std.specs.Prelude.{◌≡◌};
ghost use Rattle.registers.specs.Put.{put_cursor, put_work};

use dots::Cursor;
use registers::{Registers, Work};

pub mod character;
pub mod figure;
pub mod reading;

// What is in progress goes on elsewhere.
pub fn goes_on(r: Registers, cursor: Cursor, work: Work) -> Registers
    ensures { result ≡ put_work (put_cursor r cursor) work }
{
    Registers { cursor, work, ..r }
}
