// The lines of the bench that drive the controller and look at it.
#![tactic(auto)]

mod fields;
mod listed;
mod memory;
mod port;
mod show;

pub use fields::{count_done, wiring_done};
pub use memory::{Worked, memory_done};
pub use port::port_done;
pub use show::shown;
