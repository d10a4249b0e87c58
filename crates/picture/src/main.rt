// Draws a sheet: the sheet on standard input, the picture as a portable bitmap (PBM, P4) on standard output. Or says what it costs:
// figures, entries, dots, and the time that the chip takes for them, in one line on standard output, and draws nothing.
//
//     picture [GLYPHS [P [H [WORDS [WIRING]]]]] < SHEET > PICTURE
//     picture --cost [GLYPHS [P [H]]] < SHEET
//
// GLYPHS is a file of eight bytes a glyph, or '-' for none; P 40, H 400 and 16,384 words of memory unless others are given. WIRING is
// open or folded; folded unless it is given. Where anything is wrong it says so in a sentence on standard error and writes nothing else.
#![tactic(auto)]

use dots::Wiring;
use std::rt::{Env, Files};

// Argument i as a number, or the usual one where it is not given.
fn number_at(rt: &impl Env, i: usize, usual: u32) -> Option<u32> {
    if !outside::is_given(rt, i) {
        return Some(usual);
    }
    let mut text = [0u8; 16];
    let n = outside::arg(rt, i, &mut text);
    decimals::number_of(&text[..n])
}

fn complain(text: &[u8]) {
    io::write_all(2, b"picture: ");
    io::write_all(2, text);
    io::write_all(2, b"\n");
}

// The bytes of the glyph file that argument i names at the start of a table, and how many, if they can be read; one more than 2,048 are
// read, so that a longer file is seen.
fn read_glyphs(rt: &(impl Env + Files), i: usize, table: &mut [u8]) -> Option<usize> {
    if !outside::is_given(rt, i) {
        return Some(0);
    }
    let mut name = [0u8; 4096];
    let n = outside::arg(rt, i, &mut name);
    if n == 0 {
        return None;
    }
    if (n == 1) & (name[0] == b'-') {
        return Some(0);
    }
    let got = outside::file(rt, &name[..n], table);
    if got == 0 {
        return None;
    }
    Some(got)
}

// The picture is written, by way of a room.
fn show_by(mem: &[u16], p: u32, h: u32, room: &mut [u8]) {
    if !pages::write_page(mem, p, h, room) {
        complain(b"the picture cannot be written");
    }
}

fn show(mem: &[u16], p: u32, h: u32) {
    let mut room = [0u8; 524288];
    show_by(mem, p, h, &mut room);
}

// The sheet is drawn from fresh registers, so wired, over a memory of zeros.
fn draw(sheet: &[u8], p: u32, h: u32, glyphs: &[u8], wiring: Wiring, mem: &mut [u16]) {
    let mut entries = [0u16; 128802];
    let r = wirings::wired(registers::fresh(), wiring);
    match drawing::draw_sheet(sheet, p, h, glyphs, r, &mut entries, mem) {
        Ok(_) => show(mem, p, h),
        Err(why) => {
            let a = why.answer();
            sentences::say_refusal(2, a.number, a.first, a.second);
        }
    }
}

// The sheet is read, and drawn in that many words.
fn picture_of(p: u32, h: u32, glyphs: &[u8], words: usize, wiring: Wiring, mem: &mut [u16]) {
    let mut sheet = [0u8; 8193];
    let n = io::read_full(0, &mut sheet);
    let w = buffers::used(words, mem);
    draw(&sheet[..n], p, h, glyphs, wiring, &mut mem[..w]);
}

// The picture with a table of glyphs.
fn picture_with(p: u32, h: u32, glyphs: &[u8], words: u32, wiring: Wiring) {
    let mut mem = [0u16; 262144];
    picture_of(p, h, glyphs, words as usize, wiring, &mut mem);
}

fn no_glyphs() {
    complain(b"the glyph file is missing or empty, or cannot be read");
}

// The glyphs are read.
fn picture_in(rt: &(impl Env + Files), p: u32, h: u32, words: u32, wiring: Wiring) {
    if 262144 < words {
        complain(b"a memory has at most 262144 words");
        return;
    }
    let mut glyphs = [0u8; 2049];
    let Some(read) = read_glyphs(rt, 1, &mut glyphs) else {
        return no_glyphs();
    };
    picture_with(p, h, buffers::part(read, &glyphs), words, wiring);
}

fn wrong_number() {
    complain(b"P, H and WORDS are decimal numbers of 32 bits");
}

fn wrong_wiring() {
    complain(b"WIRING is open or folded");
}

// What the sheet costs is said.
fn tell(sheet: &[u8], p: u32, h: u32, glyphs: &[u8]) {
    match costs::cost_of(sheet, p, h, glyphs) {
        Ok(c) => sentences::say_cost(1, c.figures, c.entries, c.units),
        Err(why) => {
            let a = why.answer();
            sentences::say_refusal(2, a.number, a.first, a.second);
        }
    }
}

// The sheet and the glyphs are read, and the cost is said.
fn cost_in(rt: &(impl Env + Files), p: u32, h: u32) {
    let mut glyphs = [0u8; 2049];
    let Some(read) = read_glyphs(rt, 2, &mut glyphs) else {
        return no_glyphs();
    };
    let mut sheet = [0u8; 8193];
    let n = io::read_full(0, &mut sheet);
    tell(&sheet[..n], p, h, buffers::part(read, &glyphs));
}

// `picture --cost`
fn cost(rt: &(impl Env + Files)) {
    if outside::is_given(rt, 5) {
        complain(b"after --cost there are at most three arguments, GLYPHS P H");
        return;
    }
    let Some(p) = number_at(rt, 3, 40) else {
        return wrong_number();
    };
    let Some(h) = number_at(rt, 4, 400) else {
        return wrong_number();
    };
    cost_in(rt, p, h);
}

// Whether the first argument asks for the cost.
fn cost_asked(rt: &impl Env) -> bool {
    let mut word = [0u8; 16];
    let n = outside::arg(rt, 1, &mut word);
    check::same(&word[..n], b"--cost")
}

fn main(rt: HostRuntime) {
    if cost_asked(&rt) {
        return cost(&rt);
    }
    if outside::is_given(&rt, 6) {
        complain(b"there are at most five arguments, GLYPHS P H WORDS WIRING");
        return;
    }
    let Some(p) = number_at(&rt, 2, 40) else {
        return wrong_number();
    };
    let Some(h) = number_at(&rt, 3, 400) else {
        return wrong_number();
    };
    let Some(words) = number_at(&rt, 4, 16384) else {
        return wrong_number();
    };
    let Some(wiring) = wirings::wiring_at(&rt, 5) else {
        return wrong_wiring();
    };
    picture_in(&rt, p, h, words, wiring);
}
