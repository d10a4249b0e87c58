// Replays a record of the bus: its events on standard input, one to a line, its pictures as a stream of portable bitmaps (PBM, P4) on
// standard output.
//
//     replay P H WORDS [WIRING] < RECORD > PICTURES
//
// WIRING is open or folded; folded unless it is given.
// What was refused, what was no event and how much there was of everything is said on standard error (docs/REPLAY.md).
#![tactic(auto)]

ghost use Rattle.std.specs.Prelude.{◌≡◌};
ghost use Rattle.replay.specs.Plane.{plane_refused, fresh_on};

use console::output::Output;
use console::reader::Reader;
use dots::Wiring;
use events::Event;
use log::Tally;
use registers::Registers;
use std::io::{ErrorKind, Write};
use std::rt::Env;

mod log;

// The picture's size: words in a line, and lines; and how the memory is wired.
#[derive(Clone, Copy)]
pub struct Plane {
    pub across: u32,
    pub down: u32,
    pub wiring: Wiring,
}

// How far the record is read, what was counted, and what the line that was read says.
#[derive(Clone, Copy)]
pub struct Told {
    pub reader: Reader,
    pub tally: Tally,
    pub event: Event,
}

// The next line, if one is whole; else more of the record is read, which says nothing yet.
fn next(rt: &HostRuntime, told: &mut Told, input: &mut [u8], line: &mut [u8]) {
    let mut nobody = Output::new(&mut []);
    let reader = told.reader.next_line(rt, input, line, &mut nobody);
    if !reader.whole {
        told.reader = reader;
        told.event = Event::Nothing;
        return;
    }
    told.reader = reader.past();
    told.tally.begin_line();
    told.event = events::event_of(buffers::part(reader.length, line));
}

// A picture is written.
fn picture(tally: &mut Tally, plane: Plane, mem: &[u16], room: &mut [u8]) {
    tally.picture(pages::write_page(mem, plane.across, plane.down, room));
}

// What the controller answered is told, or the picture written that the line asks for.
fn done(told: &mut Told, number: u8, units: u64, plane: Plane, mem: &[u16], room: &mut [u8]) {
    match told.event {
        Event::Picture => picture(&mut told.tally, plane, mem, room),
        event => told.tally.answered(event, number, units),
    }
}

// A picture at the end where there was none; then what was counted.
fn ended(tally: &mut Tally, plane: Plane, mem: &[u16], room: &mut [u8]) {
    if (tally.pictures == 0) & !tally.broken {
        picture(tally, plane, mem, room);
    }
    tally.ended();
}

// The registers before the first line.
#[tactic(auto, unfolding(crate::specs::Plane::fresh_on))]
fn fresh_on(plane: Plane) -> Registers
    ensures { result ≡ fresh_on plane }
{
    wirings::wired(registers::fresh(), plane.wiring)
}

// Whether standard error is a pipe that nobody reads any more. A newline is tried, where writing failed before.
fn is_gone(rt: &HostRuntime) -> bool {
    match rt.stderr().write(b"\n") {
        Err(e) => e.kind() == ErrorKind::BrokenPipe,
        Ok(_) => false,
    }
}

// Where a line could not be spoken of, since nobody listens, the record ends.
fn heard(rt: &HostRuntime, tally: &mut Tally) {
    if tally.unsaid {
        tally.unheard(is_gone(rt));
    }
}

// A proved loop has to end, and nothing says that a record does: there are more turns than any run takes. The record's last line is done,
// or the output takes no more, where it is left.
fn turns(
    rt: &HostRuntime,
    input: &mut [u8],
    line: &mut [u8],
    plane: Plane,
    mem: &mut [u16],
    room: &mut [u8],
) {
    let mut regs = fresh_on(plane);
    let mut told = Told {
        reader: Reader::start(),
        tally: Tally::default(),
        event: Event::Nothing,
    };
    for _ in 0..u64::MAX {
        next(rt, &mut told, input, line);
        let asked = events::asked_of(told.event, told.tally.by_units);
        let q = replaying::replay(regs, &asked, mem);
        regs = q.regs;
        done(&mut told, q.number, q.units, plane, mem, room);
        heard(rt, &mut told.tally);
        if told.reader.ended | told.tally.broken {
            break;
        }
    }
    ended(&mut told.tally, plane, mem, room);
}

// A line's first 81 characters are held: they say what the line says (`held_decides`, crate events). The largest picture has 524,288
// bytes.
fn replay_in(rt: &HostRuntime, plane: Plane, mem: &mut [u16]) {
    let mut input = [0u8; 65536];
    let mut line = [0u8; 81];
    let mut room = [0u8; 524288];
    turns(rt, &mut input, &mut line, plane, mem, &mut room);
}

// The memory has so many words.
fn replay_at(rt: &HostRuntime, plane: Plane, words: u32, mem: &mut [u16]) {
    let w = buffers::used(words as usize, mem);
    replay_in(rt, plane, &mut mem[..w]);
}

// It is a memory of zeros.
fn replay_with(rt: &HostRuntime, plane: Plane, words: u32) {
    let mut mem = [0u16; 262144];
    replay_at(rt, plane, words, &mut mem);
}

// The number with which a plane and a memory, so wired, are refused, if they are.
#[tactic(auto, unfolding(crate::specs::Plane::plane_refused))]
fn plane_refused(wiring: Wiring, p: u32, h: u32, words: u32) -> Option<u8>
    ensures { result ≡ plane_refused wiring p h words }
{
    if !units::length_right(wiring, words as usize) {
        return Some(2);
    }
    if !refusals::plane_fits(p, h) {
        return Some(11);
    }
    if u64::from(words) < u64::from(p) * u64::from(h) {
        return Some(23);
    }
    None
}

// An argument as a number.
fn number_at(rt: &impl Env, i: usize) -> Option<u32> {
    let mut text = [0u8; 16];
    let n = outside::arg(rt, i, &mut text);
    decimals::number_of(&text[..n])
}

// The plane and the memory are there, or are refused.
fn replay_on(rt: &HostRuntime, plane: Plane, words: u32) {
    match plane_refused(plane.wiring, plane.across, plane.down, words) {
        Some(number) => log::refused_plane(number),
        None => replay_with(rt, plane, words),
    }
}

fn main(rt: HostRuntime) {
    if !outside::is_given(&rt, 3) | outside::is_given(&rt, 5) {
        return log::usage();
    }
    let Some(across) = number_at(&rt, 1) else {
        return log::usage();
    };
    let Some(down) = number_at(&rt, 2) else {
        return log::usage();
    };
    let Some(words) = number_at(&rt, 3) else {
        return log::usage();
    };
    let Some(wiring) = wirings::wiring_at(&rt, 4) else {
        return log::usage();
    };
    let plane = Plane {
        across,
        down,
        wiring,
    };
    replay_on(&rt, plane, words);
}
