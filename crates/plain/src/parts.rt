// The parts of a register set from plain numbers, and back.
ghost use Rattle.std.specs.Prelude.{◌≡◌};
ghost use Rattle.plain.specs.Parts.{
  cursor_of,
  cursor_plain,
  drawing_of,
  drawing_plain,
  video_of,
  video_plain,
  pen_of,
  pen_plain,
  buffer_of,
  buffer_plain,
  progress_of,
  progress_plain,
  d_only,
  no_character,
  work_of,
  work_plain,
  board_of,
  board_plain,
};

use super::{
    PlainBoard, PlainBuffer, PlainCursor, PlainDrawing, PlainPen, PlainProgress, PlainVideo,
    PlainWork, numbers,
};
use dots::Cursor;
use registers::{Board, Buffer, Drawing, Pen, Progress, Running, Video, Work};

impl From<PlainCursor> for Cursor {
    ghost from_gives = { λ p c. c ≡ cursor_of p };

    fn from(p: PlainCursor) -> Cursor {
        Cursor {
            ead: p.ead,
            mask: p.mask,
        }
    }
}

impl From<Cursor> for PlainCursor {
    ghost from_gives = { λ c p. p ≡ cursor_plain c };

    fn from(c: Cursor) -> PlainCursor {
        PlainCursor {
            ead: c.ead,
            mask: c.mask,
        }
    }
}

impl From<PlainDrawing> for Drawing {
    ghost from_gives = { λ p f. f ≡ drawing_of p };

    fn from(p: PlainDrawing) -> Drawing {
        Drawing {
            kind: p.kind,
            dir: p.dir,
            gd: numbers::bit_of(p.gd),
            dc: p.dc,
            d: p.d,
            d2: p.d2,
            d1: p.d1,
            dm: p.dm,
        }
    }
}

impl From<Drawing> for PlainDrawing {
    ghost from_gives = { λ f p. p ≡ drawing_plain f };

    fn from(f: Drawing) -> PlainDrawing {
        PlainDrawing {
            kind: f.kind,
            dir: f.dir,
            gd: f.gd.into(),
            dc: f.dc,
            d: f.d,
            d2: f.d2,
            d1: f.d1,
            dm: f.dm,
        }
    }
}

impl From<PlainVideo> for Video {
    ghost from_gives = { λ p v. v ≡ video_of p };

    fn from(p: PlainVideo) -> Video {
        let PlainVideo {
            zoom,
            display,
            vsync,
            sync,
            cchar,
        } = p;
        Video {
            zoom,
            display: numbers::bit_of(display),
            vsync: numbers::bit_of(vsync),
            sync,
            cchar,
        }
    }
}

impl From<Video> for PlainVideo {
    ghost from_gives = { λ v p. p ≡ video_plain v };

    fn from(v: Video) -> PlainVideo {
        let Video {
            zoom,
            display,
            vsync,
            sync,
            cchar,
        } = v;
        PlainVideo {
            zoom,
            display: display.into(),
            vsync: vsync.into(),
            sync,
            cchar,
        }
    }
}

impl From<PlainPen> for Pen {
    ghost from_gives = { λ p q. q ≡ pen_of p };

    fn from(p: PlainPen) -> Pen {
        Pen {
            address: p.address,
            set: numbers::bit_of(p.set),
        }
    }
}

impl From<Pen> for PlainPen {
    ghost from_gives = { λ p q. q ≡ pen_plain p };

    fn from(p: Pen) -> PlainPen {
        PlainPen {
            address: p.address,
            set: p.set.into(),
        }
    }
}

impl From<PlainBuffer> for Buffer {
    ghost from_gives = { λ p b. b ≡ buffer_of p };

    fn from(p: PlainBuffer) -> Buffer {
        let PlainBuffer { entries, count } = p;
        Buffer { entries, count }
    }
}

impl From<Buffer> for PlainBuffer {
    ghost from_gives = { λ b p. p ≡ buffer_plain b };

    fn from(b: Buffer) -> PlainBuffer {
        let Buffer { entries, count } = b;
        PlainBuffer { entries, count }
    }
}

impl From<PlainProgress> for Progress {
    ghost from_gives = { λ p q. q ≡ progress_of p };

    fn from(p: PlainProgress) -> Progress {
        Progress {
            command: numbers::command_of(p.command, p.transfer),
            next: p.next,
            low: p.low,
        }
    }
}

impl From<Progress> for PlainProgress {
    ghost from_gives = { λ p q. q ≡ progress_plain p };

    fn from(p: Progress) -> PlainProgress {
        PlainProgress {
            command: numbers::command_number(p.command),
            transfer: numbers::command_transfer(p.command),
            next: p.next,
            low: p.low,
        }
    }
}

impl From<PlainWork> for Work {
    ghost from_gives = { λ p w. w ≡ work_of p };

    fn from(w: PlainWork) -> Work {
        match w.kind {
            0 => Work::Idle,
            1 => Work::Figure { dot: w.dot, d: w.d },
            2 => Work::Character {
                row: w.row,
                column: w.column,
                start: w.start.into(),
            },
            3 => Work::Reading {
                item: w.item,
                transfer: numbers::transfer_of(w.transfer),
            },
            _ => Work::Arc {
                cycle: w.dot,
                running: Running {
                    d: w.d,
                    d1: w.d1,
                    d2: w.d2,
                },
            },
        }
    }
}

// A work that is no character.
fn plain_work(kind: u8, transfer: u8, a: Running, item: u16, dot: u32) -> PlainWork
    ensures { result ≡ no_character kind transfer a item dot }
{
    PlainWork {
        kind,
        transfer,
        d: a.d,
        d1: a.d1,
        d2: a.d2,
        item,
        dot,
        row: 0,
        column: 0,
        start: PlainCursor { ead: 0, mask: 0 },
    }
}

// D alone, which a figure runs; 0 where none does.
fn d_only(d: u16) -> Running
    ensures { result ≡ d_only d }
{
    Running { d, d1: 0, d2: 0 }
}

impl From<Work> for PlainWork {
    ghost from_gives = { λ w p. p ≡ work_plain w };

    fn from(w: Work) -> PlainWork {
        match w {
            Work::Idle => plain_work(0, 0, d_only(0), 0, 0),
            Work::Figure { dot, d } => plain_work(1, 0, d_only(d), 0, dot),
            Work::Arc { cycle, running } => plain_work(4, 0, running, 0, cycle),
            Work::Character { row, column, start } => PlainWork {
                row,
                column,
                start: start.into(),
                ..plain_work(2, 0, d_only(0), 0, 0)
            },
            Work::Reading { item, transfer } => {
                plain_work(3, numbers::transfer_number(transfer), d_only(0), item, 0)
            }
        }
    }
}

impl From<PlainBoard> for Board {
    ghost from_gives = { λ p b. b ≡ board_of p };

    fn from(p: PlainBoard) -> Board {
        Board {
            wiring: numbers::wiring_of(p.wiring),
        }
    }
}

impl From<Board> for PlainBoard {
    ghost from_gives = { λ b p. p ≡ board_plain b };

    fn from(b: Board) -> PlainBoard {
        PlainBoard {
            wiring: numbers::wiring_number(b.wiring),
        }
    }
}
