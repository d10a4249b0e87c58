// The register set in plain numbers, as C holds it, and back. A set that is none (a bit that is 2, an enum's number out of range, an
// unused field that is not 0) has no form.
#![tactic(auto)]

pub mod convert;
pub mod numbers;
pub mod parts;

#[repr(C)]
#[derive(Clone, Copy)]
pub struct PlainCursor {
    pub ead: u32,
    pub mask: u16,
}

#[repr(C)]
#[derive(Clone, Copy)]
pub struct PlainDrawing {
    pub kind: u8,
    pub dir: u8,
    pub gd: u8,
    pub dc: u16,
    pub d: u16,
    pub d2: u16,
    pub d1: u16,
    pub dm: u16,
}

#[repr(C)]
#[derive(Clone, Copy)]
pub struct PlainVideo {
    pub zoom: u8,
    pub display: u8,
    pub vsync: u8,
    pub sync: [u8; 8],
    pub cchar: [u8; 3],
}

#[repr(C)]
#[derive(Clone, Copy)]
pub struct PlainPen {
    pub address: u32,
    pub set: u8,
}

#[repr(C)]
#[derive(Clone, Copy)]
pub struct PlainBuffer {
    pub entries: [u16; 16],
    pub count: u8,
}

// A transfer stands beside WDAT (15) and RDAT (16) alone.
#[repr(C)]
#[derive(Clone, Copy)]
pub struct PlainProgress {
    pub command: u8,
    pub transfer: u8,
    pub next: u8,
    pub low: u8,
}

// What is in progress: 0 nothing; 1 a figure (dot, d); 2 a character (row, column, start); 3 a read (item, transfer); 4 an arc (its cycles
// done in dot; d, d1, d2).
#[repr(C)]
#[derive(Clone, Copy)]
pub struct PlainWork {
    pub kind: u8,
    pub transfer: u8,
    pub d: u16,
    pub d1: u16,
    pub d2: u16,
    pub item: u16,
    pub dot: u32,
    pub row: u32,
    pub column: u32,
    pub start: PlainCursor,
}

// What the board is: its wiring, 0 folded, 1 open.
#[repr(C)]
#[derive(Clone, Copy)]
pub struct PlainBoard {
    pub wiring: u8,
}

// The register set in plain numbers.
#[repr(C)]
#[derive(Clone, Copy)]
pub struct PlainRegisters {
    pub cursor: PlainCursor,
    pub pitch: u8,
    pub drawing: PlainDrawing,
    pub op: u8,
    pub ram: [u8; 16],
    pub video: PlainVideo,
    pub pen: PlainPen,
    pub mode: u8,
    pub buffer: PlainBuffer,
    pub progress: PlainProgress,
    pub work: PlainWork,
    // How many cycles the figure in progress still needs, else 0.
    pub remaining: u64,
    pub board: PlainBoard,
}
