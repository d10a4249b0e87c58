// Which plain numbers are those of a register set, and of a sound one: every entry from C asks it first.
#![tactic(auto)]

ghost use Rattle.std.specs.Prelude.{◌≡◌, ◌&&◌};
ghost use Rattle.registers.specs.Sound.{place_b, work_b, sound_b};
ghost use Rattle.plain.specs.Form.{command_form_b, no_figure_b, no_arc_b, no_character_b, no_reading_b, work_form_b, bits_b, plain_form_b};
ghost use Rattle.plain.specs.Mirror.{from_plain};
ghost use Rattle.forms.specs.Fit.{nothing_b, figure_b, character_b, read_b, arc_b, in_progress_b, numbers_b};

use plain::{PlainRegisters, PlainWork, numbers};
use registers::{Drawing, Mode, Running, Work};

fn command_formed(n: u8, transfer: u8) -> bool
    ensures { result ≡ command_form_b n transfer }
{
    if transfer == 0 {
        return n < numbers::COMMANDS;
    }
    ((n == numbers::WDAT) | (n == numbers::RDAT)) & (transfer < numbers::TRANSFERS)
}

// The fields of a figure, those that an arc has beside them, of a character and of a read are 0.
fn no_figure(w: PlainWork) -> bool
    ensures { result ≡ no_figure_b w }
{
    (w.dot | w.d as u32) == 0
}

fn no_arc(w: PlainWork) -> bool
    ensures { result ≡ no_arc_b w }
{
    (w.d1 | w.d2) == 0
}

fn no_character(w: PlainWork) -> bool
    ensures { result ≡ no_character_b w }
{
    (w.row | w.column | w.start.ead | w.start.mask as u32) == 0
}

fn no_reading(w: PlainWork) -> bool
    ensures { result ≡ no_reading_b w }
{
    (w.item as u32 | w.transfer as u32) == 0
}

// A kind of work, and of each field that it has no use for nothing.
fn work_formed(w: PlainWork) -> bool
    ensures { result ≡ work_form_b w }
{
    let kind = w.kind;
    (kind < 5)
        & ((kind == 1) | (kind == 4) | no_figure(w))
        & ((kind == 4) | no_arc(w))
        & ((kind == 2) | no_character(w))
        & ((kind != 3) | (w.transfer < numbers::TRANSFERS))
        & ((kind == 3) | no_reading(w))
}

// Each bit is 0 or 1.
fn bits_formed(p: PlainRegisters) -> bool
    ensures { result ≡ bits_b p }
{
    (p.drawing.gd < 2) & (p.video.display < 2) & (p.video.vsync < 2) & (p.pen.set < 2)
}

#[tactic(auto, unfolding(plain::specs::Form::plain_form_b))]
pub fn formed(p: PlainRegisters) -> bool
    ensures { result ≡ plain_form_b p }
{
    let bits = bits_formed(p);
    let command = command_formed(p.progress.command, p.progress.transfer);
    let work = work_formed(p.work);
    let wiring = p.board.wiring < numbers::WIRINGS;
    bits & (p.op < numbers::OPERATIONS) & (p.mode < numbers::MODES) & wiring & command & work
}

// What is in progress is inside its figure or read, and of its mode.
fn placed(f: Drawing, zoom: u8, m: Mode, work: Work) -> bool
    ensures { result ≡ (place_b f zoom work && work_b m work) }
{
    registers::place_fits(f, zoom, work) & registers::work_fits(m, work)
}

// Kind by kind: the fields that it has no use for are 0, it is placed, and so many cycles of it are left. Each asks its own kind's count:
// by `registers::cycles_left`, said once in `placed`, the status beside a figure took 314 instructions for 267.
fn nothing_fits(w: PlainWork, left: u64) -> bool
    ensures { result ≡ nothing_b w left }
{
    no_figure(w) & no_arc(w) & no_character(w) & no_reading(w) & (left == 0)
}

fn figure_fits(w: PlainWork, f: Drawing, zoom: u8, m: Mode, left: u64) -> bool
    ensures { result ≡ figure_b w f zoom m left }
{
    let spare = no_arc(w) & no_character(w) & no_reading(w);
    let figure = Work::Figure { dot: w.dot, d: w.d };
    let cycles = u64::from(registers::dots_of(f).saturating_sub(w.dot));
    let inside = placed(f, zoom, m, figure) & (left == cycles);
    spare & inside
}

fn character_fits(w: PlainWork, f: Drawing, zoom: u8, m: Mode, left: u64) -> bool
    ensures { result ≡ character_b w f zoom m left }
{
    let spare = no_figure(w) & no_arc(w) & no_reading(w);
    let character = Work::Character {
        row: w.row,
        column: w.column,
        start: w.start.into(),
    };
    let cycles = registers::character_left(f, zoom, w.row, w.column);
    let inside = placed(f, zoom, m, character) & (left == cycles);
    spare & inside
}

fn read_fits(w: PlainWork, f: Drawing, zoom: u8, m: Mode, left: u64) -> bool
    ensures { result ≡ read_b w f zoom m left }
{
    let spare = no_figure(w) & no_arc(w) & no_character(w) & (w.transfer < numbers::TRANSFERS);
    let read = Work::Reading {
        item: w.item,
        transfer: numbers::transfer_of(w.transfer),
    };
    let inside = placed(f, zoom, m, read) & (left == 0);
    spare & inside
}

fn arc_fits(w: PlainWork, f: Drawing, zoom: u8, m: Mode, left: u64) -> bool
    ensures { result ≡ arc_b w f zoom m left }
{
    let spare = no_character(w) & no_reading(w);
    let arc = Work::Arc {
        cycle: w.dot,
        running: Running {
            d: w.d,
            d1: w.d1,
            d2: w.d2,
        },
    };
    let cycles = u64::from(registers::arc_cycles_of(f).saturating_sub(w.dot));
    let inside = placed(f, zoom, m, arc) & (left == cycles);
    spare & inside
}

// What is in progress is formed and placed, with its count. Nothing, asked first, needs no other part of the set.
fn work_fits(p: PlainRegisters) -> bool
    ensures { result ≡ in_progress_b p }
{
    let kind = p.work.kind;
    if kind == 0 {
        return nothing_fits(p.work, p.remaining);
    }
    let w = p.work;
    let f = Drawing::from(p.drawing);
    let zoom = p.video.zoom;
    let m = numbers::mode_of(p.mode);
    let left = p.remaining;
    match kind {
        1 => figure_fits(w, f, zoom, m, left),
        2 => character_fits(w, f, zoom, m, left),
        3 => read_fits(w, f, zoom, m, left),
        4 => arc_fits(w, f, zoom, m, left),
        _ => false,
    }
}

// Each number that stands for itself is within its width.
fn numbers_fit(p: PlainRegisters) -> bool
    ensures { result ≡ numbers_b p }
{
    let formed = bits_formed(p)
        & (p.op < numbers::OPERATIONS)
        & (p.mode < numbers::MODES)
        & (p.board.wiring < numbers::WIRINGS);
    let cursor = registers::cursor_fits(p.cursor.into());
    let drawing = registers::drawing_fits(p.drawing.into());
    let sound = cursor
        & drawing
        & (p.pen.address < dots::ADDRESSES)
        & (p.progress.next <= registers::PARAMETERS);
    formed & sound
}

pub fn fits(p: PlainRegisters) -> bool
    ensures { result ≡ (plain_form_b p && sound_b (from_plain p)) }
{
    numbers_fit(p)
        && command_formed(p.progress.command, p.progress.transfer)
        && work_fits(p)
        && registers::buffer_fits(numbers::mode_of(p.mode), p.buffer.into())
}
