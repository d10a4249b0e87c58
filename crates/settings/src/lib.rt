// Entries in a row that only set registers.
#![tactic(auto, unfolding(crate::specs::Settings::settable_b))]

ghost use Rattle.std.specs.Prelude.{◌≡◌, ◌%◌, drop};
ghost use Rattle.registers.specs.declared.Command.TheVariants.{Wdat};
ghost use Rattle.settings.specs.Settings.{
  setting_b,
  settable_b,
  command_settled,
  data_all,
  settled,
  settle_all,
};

use dots::{Cursor, Operation};
use registers::{Board, Command, Drawing, Progress, Transfer};

// The registers that such entries set, and the board, which they leave.
#[derive(Clone, Copy)]
pub struct Settings {
    pub board: Board,
    pub cursor: Cursor,
    pub pitch: u8,
    pub drawing: Drawing,
    pub op: Operation,
    pub ram: [u8; 16],
    pub zoom: u8,
    pub progress: Progress,
}

// The registers after such entries, and how many there were.
#[derive(Clone, Copy)]
pub struct Settled {
    pub settings: Settings,
    pub count: usize,
}

// A command that sets these registers alone and begins nothing.
fn setting(c: Command) -> bool
    ensures { result ≡ setting_b c }
{
    matches!(
        c,
        Command::Zoom
            | Command::Curs
            | Command::Pram
            | Command::Pitch
            | Command::Mask
            | Command::Figs
            | Command::Wdat(_)
    )
}

// Whether an entry only sets registers, behind the command in progress.
fn settable(held: Command, e: u16, byte: u8) -> bool
    requires { byte ≡ e % 256 }
    ensures { result ≡ settable_b held e }
{
    if e < 256 {
        setting(held)
    } else {
        (e < 512) & setting(commands::command_of(byte))
    }
}

// WDAT's bytes, up to the next command.
fn data_taken(sync: u8, from: Settings, t: Transfer, entries: &[u16], mem: &mut [u16]) -> Settled
    requires { from.progress.command ≡ Wdat t }
    ensures { settled result mem.new ≡ data_all sync t from entries.now mem.old }
{
    let mapped = wdat::bit_mapped(sync, from.drawing.gd);
    let mut cursor = from.cursor;
    let mut next = from.progress.next;
    let mut low = from.progress.low;
    let mut count = 0;
    for e in entries {
        if 256 <= *e {
            break;
        }
        let v = (*e % 256) as u8;
        if wdat::half(t, next) {
            next = 1;
            low = v;
        } else {
            let pattern = wdat::set_pattern(mapped, t, low, v);
            dots::cycle(mem, from.board.wiring, cursor, pattern, from.op);
            cursor = dots::word_move(from.drawing.dir, from.pitch, cursor);
            next = 0;
            low = 0;
        }
        count += 1;
    }
    Settled {
        settings: Settings {
            cursor,
            progress: Progress {
                next,
                low,
                ..from.progress
            },
            ..from
        },
        count,
    }
}

// A command is taken.
fn begin(p: Settings, byte: u8) -> Settings
    ensures { result ≡ command_settled byte p }
{
    let command = commands::command_of(byte);
    let progress = Progress {
        command,
        next: processor::command::first_of(byte),
        low: 0,
    };
    match command {
        Command::Figs => Settings {
            drawing: processor::command::refresh(p.drawing),
            progress,
            ..p
        },
        Command::Wdat(_) => Settings {
            op: Operation::from(byte % 4),
            progress,
            ..p
        },
        _ => Settings { progress, ..p },
    }
}

// The entries from place k on, up to the first that does more than set registers; sync byte 1 decides how WDAT writes. Its bytes have a
// loop of their own.
pub fn settle(sync: u8, from: Settings, entries: &[u16], k: usize, mem: &mut [u16]) -> Settled
    ensures { settled result mem.new ≡ settle_all sync from (drop k entries.now) mem.old }
{
    let mut p = from;
    let mut at = k;
    while at < entries.len() {
        let e = entries[at];
        let v = (e % 256) as u8;
        let held = p.progress.command;
        let i = p.progress.next;
        if !settable(held, e, v) {
            break;
        }
        if 256 <= e {
            p = begin(p, v);
        } else {
            p.progress.next = processor::parameter::next_of(i);
            match held {
                Command::Figs => p.drawing = parameters::figs_byte(p.drawing, i, v),
                Command::Curs => p.cursor = parameters::curs_byte(p.cursor, i, v),
                Command::Mask => p.cursor = parameters::mask_byte(p.cursor, i, v),
                Command::Pram => parameters::put_at(&mut p.ram, i, v),
                Command::Zoom => p.zoom = parameters::first_or(i, v, p.zoom),
                Command::Pitch => p.pitch = parameters::first_or(i, v, p.pitch),
                Command::Wdat(t) => {
                    p.progress.next = i;
                    let q = data_taken(sync, p, t, &entries[at..], mem);
                    p = q.settings;
                    at += q.count - 1;
                }
                _ => {}
            }
        }
        at += 1;
    }
    Settled {
        settings: p,
        count: at - k,
    }
}
