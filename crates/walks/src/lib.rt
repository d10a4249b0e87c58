// Dots of a figure or a character one after another, each with the step after it, up to a dot that the caller names.
#![tactic(auto)]

ghost use Rattle.std.specs.Prelude.{◌≡◌, ◌-◌};
ghost use Rattle.walks.specs.Walk.{least, led, stood, figure_walk, row_walk, rows_walk, next_row};
ghost use Rattle.walks.specs.Pace.{stroke_of};

use crate::pace::Stroke;
use dots::{Cursor, Operation, Wiring};
use registers::Drawing;

pub mod bits;
mod line;
pub mod pace;
mod side;
pub mod steps;

// The registers that a figure or a character is drawn with; its dots leave them as they are.
#[derive(Clone, Copy)]
pub struct Brush {
    pub wiring: Wiring,
    pub op: Operation,
    pub ram: [u8; 16],
    pub drawing: Drawing,
    pub zoom: u8,
    pub pitch: u8,
}

impl Brush {
    // What a figure's dots are drawn with.
    pub fn stroke(self) -> Stroke
        ensures { result ≡ stroke_of self }
    {
        Stroke {
            wiring: self.wiring,
            op: self.op,
            low: self.ram[8],
            high: self.ram[9],
        }
    }
}

// Where dots of a figure led, and the running D.
#[derive(Clone, Copy)]
pub struct Reached {
    pub cursor: Cursor,
    pub d: u16,
}

// Dots of a figure from dot k on, before dot end: by bit addresses where the mask is one bit.
pub fn figure_dots(mem: &mut [u16], b: Brush, c: Cursor, d: u16, k: u32, end: u32) -> Reached
    ensures { led result mem.new ≡ figure_walk b (end - k) k d c mem.old }
{
    match bits::address_of(c) {
        Some(at) if b.drawing.kind == registers::LINE_KIND => {
            line::line_dots(mem, b, at, d, k, end)
        }
        Some(at) => side::side_dots(mem, b, at, d, k, end),
        None => steps::plain_dots(mem, b, c, d, k, end),
    }
}

// Dots of row y from dot x on, before dot end: by bit addresses where the mask is one bit and the character not enlarged.
pub fn row_dots(mem: &mut [u16], b: Brush, y: u32, x: u32, from: Cursor, end: u32) -> Cursor
    ensures { stood result mem.new ≡ row_walk b (end - x) y x from mem.old }
{
    match bits::address_of(from) {
        Some(at) if registers::factor_of(b.zoom) == 1 => {
            dots::cursor_at(side::row_bits(mem, b, y, x, at, end))
        }
        _ => steps::plain_row(mem, b, y, x, from, end),
    }
}

// Whole rows from row y on, before row end, likewise.
pub fn rows_dots(mem: &mut [u16], b: Brush, y: u32, from: Cursor, end: u32) -> Cursor
    ensures { stood result mem.new ≡ rows_walk b (end - y) y from mem.old }
{
    match bits::address_of(from) {
        Some(at) if registers::factor_of(b.zoom) == 1 => {
            dots::cursor_at(side::rows_bits(mem, b, y, at, end))
        }
        _ => steps::plain_rows(mem, b, y, from, end),
    }
}

// Where the next row starts.
pub fn next_row(b: Brush, start: Cursor) -> Cursor
    ensures { result ≡ next_row b start }
{
    dots::step(((b.drawing.dir as u16 + 2) % 8) as u8, b.pitch, start)
}
