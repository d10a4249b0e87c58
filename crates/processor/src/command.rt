// What a command byte does.
ghost use Rattle.std.specs.Prelude.{◌≡◌, ◌≤◌, length};
ghost use Rattle.registers.specs.Put.{put_progress};
ghost use Rattle.registers.specs.Fresh.{fresh_drawing, empty_buffer};
ghost use Rattle.processor.specs.Command.{
  first_of,
  begun,
  reset_done,
  turned,
  holding,
  cursor_bytes,
  pen_bytes,
  pen_given,
  figure_begun,
  figd_taken,
  character_begun,
  count_begun,
  read_begun,
  command_taken,
};

use dots::{Cursor, Operation};
use registers::{Buffer, Command, Drawing, Mode, Pen, Progress, Registers, Transfer, Video, Work};

// The command in progress, with no parameter taken.
fn begin(r: Registers, command: Command, byte: u8) -> Registers
    ensures { result ≡ put_progress r (begun command byte) }
{
    Registers {
        progress: Progress {
            command,
            next: first_of(byte),
            low: 0,
        },
        ..r
    }
}

// Where its first parameter goes.
pub fn first_of(byte: u8) -> u8
    ensures { result ≡ first_of byte }
{
    match byte {
        0x70..=0x7F => byte % 16,
        _ => 0,
    }
}

// RESET: the buffer is emptied, write mode, nothing in progress, display off.
#[tactic(auto, unfolding(crate::specs::Command::reset_done))]
pub fn reset_done(r: Registers) -> Registers
    ensures { result ≡ reset_done r }
{
    Registers {
        video: Video {
            display: false,
            ..r.video
        },
        mode: Mode::Write,
        buffer: no_entries(),
        progress: Progress {
            command: Command::Reset,
            next: 0,
            low: 0,
        },
        work: Work::Idle,
        remaining: 0,
        ..r
    }
}

// A buffer that holds nothing.
pub fn no_entries() -> Buffer
    ensures { result ≡ empty_buffer }
{
    Buffer::default()
}

// Read mode, with a buffer in place of the entries behind the command.
fn turn(r: Registers, buffer: Buffer) -> Registers
    ensures { result ≡ turned r buffer }
{
    Registers {
        mode: Mode::Read,
        buffer,
        ..r
    }
}

// A buffer of these bytes.
fn buffer_of(bytes: &[u16]) -> Buffer
    requires { length bytes.now ≤ 16 }
    ensures { result ≡ holding bytes.now }
{
    let mut entries = [0; 16];
    entries[..bytes.len()].copy_from_slice(bytes);
    Buffer {
        entries,
        count: bytes.len() as u8,
    }
}

// CURD's five bytes.
fn cursor_bytes(c: Cursor) -> Buffer
    ensures { result ≡ cursor_bytes c }
{
    buffer_of(&[
        (c.ead % 256) as u16,
        (c.ead / 256 % 256) as u16,
        (c.ead / 65536 % 256) as u16,
        c.mask % 256,
        c.mask / 256,
    ])
}

// LPRD's three bytes.
fn pen_bytes(p: Pen) -> Buffer
    ensures { result ≡ pen_bytes p }
{
    buffer_of(&[
        (p.address % 256) as u16,
        (p.address / 256 % 256) as u16,
        (p.address / 65536 % 256) as u16,
    ])
}

// LPRD: the address is given and is no more news.
fn pen_given(r: Registers) -> Registers
    ensures { result ≡ pen_given r }
{
    let pen = Pen {
        set: false,
        ..r.pen
    };
    turn(Registers { pen, ..r }, pen_bytes(pen))
}

// FIGS: DC, D, D2, D1 and DM are fresh.
pub fn refresh(f: Drawing) -> Drawing
    ensures { result ≡ fresh_drawing f }
{
    Drawing {
        dc: 0,
        d: 8,
        d2: 8,
        d1: 16383,
        dm: 16383,
        ..f
    }
}

// FIGD for a figure that is no arc.
#[tactic(auto, unfolding(crate::specs::Command::figure_begun))]
fn begin_figure(r: Registers) -> Registers
    ensures { result ≡ figure_begun r }
{
    if registers::dots_of(r.drawing) == 0 {
        return r;
    }
    Registers {
        work: Work::Figure {
            dot: 0,
            d: r.drawing.d,
        },
        ..r
    }
}

// FIGD.
#[tactic(auto, unfolding(crate::specs::Command::figd_taken))]
fn begin_figd(r: Registers) -> Registers
    ensures { result ≡ figd_taken r }
{
    match r.drawing.kind {
        registers::ARC_KIND => passes::begin_arc(r),
        _ => begin_figure(r),
    }
}

// GCHRD.
#[tactic(auto, unfolding(crate::specs::Command::character_begun))]
fn begin_character(r: Registers) -> Registers
    ensures { result ≡ character_begun r }
{
    let rows = registers::rows_of(r.drawing, r.video.zoom);
    let columns = registers::columns_of(r.drawing, r.video.zoom);
    if (rows == 0) | (columns == 0) {
        return r;
    }
    Registers {
        work: Work::Character {
            row: 0,
            column: 0,
            start: r.cursor,
        },
        ..r
    }
}

// The count of the cycles of what has begun.
fn begin_count(r: Registers) -> Registers
    ensures { result ≡ count_begun r }
{
    Registers {
        remaining: registers::cycles_left(r.drawing, r.video.zoom, r.work),
        ..r
    }
}

// RDAT.
#[tactic(auto, unfolding(crate::specs::Command::read_begun))]
fn begin_read(r: Registers, transfer: Transfer) -> Registers
    ensures { result ≡ read_begun transfer r }
{
    let n = turn(r, no_entries());
    if r.drawing.dc == 0 {
        return n;
    }
    Registers {
        work: Work::Reading { item: 0, transfer },
        ..n
    }
}

// A command byte is taken: it ends the previous command and does what it says.
#[tactic(auto, unfolding(crate::specs::Command::command_taken))]
pub fn command_taken(r: Registers, byte: u8) -> Registers
    ensures { result ≡ command_taken byte r }
{
    let c = commands::command_of(byte);
    let n = begin(r, c, byte);
    match c {
        Command::Reset => reset_done(n),
        Command::Vsync => Registers {
            video: Video {
                vsync: byte % 2 == 1,
                ..n.video
            },
            ..n
        },
        Command::Start => Registers {
            video: Video {
                display: true,
                ..n.video
            },
            ..n
        },
        Command::Figs => Registers {
            drawing: refresh(n.drawing),
            ..n
        },
        Command::Figd => begin_count(begin_figd(n)),
        Command::Gchrd => begin_count(begin_character(n)),
        Command::Curd => turn(n, cursor_bytes(n.cursor)),
        Command::Lprd => pen_given(n),
        Command::Wdat(_) => Registers {
            op: Operation::from(byte % 4),
            ..n
        },
        Command::Rdat(t) => begin_read(n, t),
        Command::Nothing
        | Command::Cchar
        | Command::Zoom
        | Command::Curs
        | Command::Pram
        | Command::Pitch
        | Command::Mask
        | Command::Unknown => n,
    }
}
