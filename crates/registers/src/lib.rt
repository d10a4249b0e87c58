// The register set and its fresh values; how large a figure is, the entries of the buffer, and the test that a set is sound.
#![tactic(auto)]

ghost use Rattle.std.specs.Prelude.{◌≡◌};
ghost use Rattle.registers.specs.Fresh.{fresh_set};
ghost use Rattle.registers.specs.Sound.{write_b};

use dots::{Cursor, Operation, Wiring};

pub mod entries;
pub mod fits;
pub mod sizes;

pub use entries::{oldest_of, pop, push};
pub use fits::{
    buffer_fits, cursor_fits, drawing_fits, place_fits, running_fits, sound, work_fits,
};
pub use sizes::{
    arc_cycles_of, character_left, columns_of, cycles_left, dots_of, factor_of, rows_of,
};

// The five type bits SL, R, A, GC, L as a number: how many there are, and those of the figures.
const KINDS: u8 = 32;

const PLAIN_KIND: u8 = 0;

pub const LINE_KIND: u8 = 1;

const CHARACTER_KIND: u8 = 2;

pub const ARC_KIND: u8 = 4;

pub const RECTANGLE_KIND: u8 = 8;

// The directions, and DC to DM of 14 bits.
const DIRECTIONS: u8 = 8;

const FOURTEEN_BITS: u16 = 16384;

// The buffer's places. An entry is a byte, with a mark added for a command; one more than the greatest.
pub const PLACES: u8 = 16;

pub const COMMAND_MARK: u16 = 256;

const ENTRY_END: u16 = 512;

// At most so many parameters of a command are told apart.
pub const PARAMETERS: u8 = 16;

// Which way the buffer carries bytes.
#[derive(Clone, Copy, Default, PartialEq, Eq)]
pub enum Mode {
    #[default]
    Write,
    Read,
}

// The type of a transfer: a word, low byte first; its low byte; its high byte.
#[derive(Clone, Copy)]
pub enum Transfer {
    Word,
    Low,
    High,
}

// A command: none yet, those of the list, and any other byte.
#[derive(Clone, Copy, Default)]
pub enum Command {
    #[default]
    Nothing,
    Reset,
    Vsync,
    Cchar,
    Start,
    Zoom,
    Curs,
    Pram,
    Pitch,
    Mask,
    Figs,
    Figd,
    Gchrd,
    Curd,
    Lprd,
    Wdat(Transfer),
    Rdat(Transfer),
    Unknown,
}

// The running copies of D, D1 and D2 of an arc.
#[derive(Clone, Copy)]
pub struct Running {
    pub d: u16,
    pub d1: u16,
    pub d2: u16,
}

// What is in progress.
#[derive(Clone, Copy, Default)]
pub enum Work {
    #[default]
    Idle,
    // FIGD's figure: the dot reached, and the running copy of D.
    Figure {
        dot: u32,
        d: u16,
    },
    // FIGD's arc: how many of its cycles are done.
    Arc {
        cycle: u32,
        running: Running,
    },
    // GCHRD's character: the row and the dot of it that are reached, and where the row started.
    Character {
        row: u32,
        column: u32,
        start: Cursor,
    },
    // A read: the item reached.
    Reading {
        item: u16,
        transfer: Transfer,
    },
}

// FIGS: the type's five bits (SL, R, A, GC, L), DIR, GD, and DC to DM of 14 bits.
#[derive(Clone, Copy)]
pub struct Drawing {
    pub kind: u8,
    pub dir: u8,
    pub gd: bool,
    pub dc: u16,
    pub d: u16,
    pub d2: u16,
    pub d1: u16,
    pub dm: u16,
}

// Bytes that are stored and not acted on, but for ZOOM's low nibble and, where WDAT writes, C and G of the first sync byte.
#[derive(Clone, Copy, Default)]
pub struct Video {
    pub zoom: u8,
    pub display: bool,
    pub vsync: bool,
    pub sync: [u8; 8],
    pub cchar: [u8; 3],
}

// The light-pen address, and whether it is news.
#[derive(Clone, Copy, Default)]
pub struct Pen {
    pub address: u32,
    pub set: bool,
}

// The first `count` entries are held, the oldest first.
#[derive(Clone, Copy, Default)]
pub struct Buffer {
    pub entries: [u16; 16],
    pub count: u8,
}

// The command in progress: where its next parameter goes, and the first byte of a half-sent word.
#[derive(Clone, Copy, Default)]
pub struct Progress {
    pub command: Command,
    pub next: u8,
    pub low: u8,
}

// What the board is; no port changes it.
#[derive(Clone, Copy)]
pub struct Board {
    pub wiring: Wiring,
}

#[derive(Clone, Copy)]
pub struct Registers {
    pub cursor: Cursor,
    pub pitch: u8,
    pub drawing: Drawing,
    pub op: Operation,
    pub ram: [u8; 16],
    pub video: Video,
    pub pen: Pen,
    pub mode: Mode,
    pub buffer: Buffer,
    pub progress: Progress,
    pub work: Work,
    // How many cycles the present figure still needs: kept, and 0 where none is in progress.
    pub remaining: u64,
    pub board: Board,
}

// The fresh set.
pub fn fresh() -> Registers
    ensures { result ≡ fresh_set }
{
    Registers {
        cursor: Cursor { ead: 0, mask: 0 },
        pitch: 0,
        drawing: Drawing {
            kind: 0,
            dir: 0,
            gd: false,
            dc: 0,
            d: 8,
            d2: 8,
            d1: 16383,
            dm: 16383,
        },
        op: Operation::Replace,
        ram: [0; 16],
        video: Video::default(),
        pen: Pen::default(),
        mode: Mode::default(),
        buffer: Buffer::default(),
        progress: Progress::default(),
        work: Work::default(),
        remaining: 0,
        board: Board {
            wiring: Wiring::Folded,
        },
    }
}
