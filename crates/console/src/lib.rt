// The bench's two ends, the script's lines in and the answers out, and what stands on it from line to line.
#![tactic(auto)]

pub mod desk;
pub mod output;
pub mod reader;
