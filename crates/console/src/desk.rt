// What stands on the bench: the registers, how much of each buffer is in use, and the picture's size.
ghost use Rattle.std.specs.Prelude.{◌≡◌};
ghost use Rattle.console.specs.Desk.{before_first};

use registers::Registers;

#[derive(Clone, Copy)]
pub struct Desk {
    // The words of the memory.
    pub words: usize,
    // The picture's size: words in a line, and lines.
    pub across: u32,
    pub down: u32,
    // The bytes of the glyph table, and of the sheet.
    pub glyphs: usize,
    pub sheet: usize,
}

// What a line of the script leaves.
#[derive(Clone, Copy)]
pub struct Left {
    pub regs: Registers,
    pub desk: Desk,
}

// An answer: a letter and numbers, or that the line is not of the language.
#[derive(Clone, Copy)]
pub enum Reply {
    Unknown,
    One(u8, u64),
    Two(u8, u64, u64),
    Three(u8, u64, u64, u64),
    Four(u8, u64, u64, u64, u64),
}

// What a line that changes the registers does: the registers after it, and its answer.
#[derive(Clone, Copy)]
pub struct Done {
    pub regs: Registers,
    pub reply: Reply,
}

// Before the first line.
pub fn start() -> Left
    ensures { result ≡ before_first }
{
    Left {
        regs: registers::fresh(),
        desk: Desk {
            words: 16,
            across: 40,
            down: 400,
            glyphs: 0,
            sheet: 0,
        },
    }
}
