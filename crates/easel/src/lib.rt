// The lines of the bench about drawing sheets: the picture's size, the glyphs, the sheet, its translation, its cost and its drawing.
#![tactic(auto)]

mod paper;
mod sheet;

pub use paper::{Laid, paper_done};
pub use sheet::{cost, drawing, translation};
