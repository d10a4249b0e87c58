// Dots one after another, each with the cursor's step after it: for every mask, kind and factor.
ghost use Rattle.std.specs.Prelude.{◌≡◌, ◌-◌};
ghost use Rattle.walks.specs.Walk.{dotted, lettered, led, stood, figure_walk, row_walk, rows_walk};

use crate::{Brush, Reached};
use dots::Cursor;

// One cycle of a figure.
pub fn dot(mem: &mut [u16], b: Brush, c: Cursor, k: u32)
    ensures { mem.new ≡ dotted b k c mem.old }
{
    let pattern = figures::figure::pattern_of(b.ram[8], b.ram[9], k);
    dots::cycle(mem, b.wiring, c, pattern, b.op);
}

// One cycle of a character.
pub fn letter(mem: &mut [u16], b: Brush, c: Cursor, row: u32, column: u32)
    ensures { mem.new ≡ lettered b row column c mem.old }
{
    let pattern = figures::character::zoomed_pattern(b.ram, b.zoom, row, column);
    dots::cycle(mem, b.wiring, c, pattern, b.op);
}

// Dots of a figure from dot k on, before dot end, each with the step after it.
pub(crate) fn plain_dots(
    mem: &mut [u16],
    b: Brush,
    from: Cursor,
    first: u16,
    k: u32,
    end: u32,
) -> Reached
    ensures { led result mem.new ≡ figure_walk b (end - k) k first from mem.old }
{
    let mut c = from;
    let mut d = first;
    for i in k..end {
        dot(mem, b, c, i);
        c = dots::step(figures::figure::direction_at(b.drawing, i, d), b.pitch, c);
        d = figures::figure::running_d(b.drawing, d);
    }
    Reached { cursor: c, d }
}

// Dots of row y from dot x on, before dot end, each with the step after it.
pub(crate) fn plain_row(mem: &mut [u16], b: Brush, y: u32, x: u32, from: Cursor, end: u32) -> Cursor
    ensures { stood result mem.new ≡ row_walk b (end - x) y x from mem.old }
{
    let mut c = from;
    for i in x..end {
        letter(mem, b, c, y, i);
        c = dots::step(b.drawing.dir, b.pitch, c);
    }
    c
}

// Whole rows from row y on, before row end, each with the return to the next row's start.
pub(crate) fn plain_rows(mem: &mut [u16], b: Brush, y: u32, from: Cursor, end: u32) -> Cursor
    ensures { stood result mem.new ≡ rows_walk b (end - y) y from mem.old }
{
    let columns = registers::columns_of(b.drawing, b.zoom);
    let mut s = from;
    for i in y..end {
        plain_row(mem, b, i, 0, s, columns);
        s = super::next_row(b, s);
    }
    s
}
