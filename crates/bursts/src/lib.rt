// Many units of a figure or a character at once: a walk over the dots before the last, then the last with what it ends.
#![tactic(auto)]

ghost use Rattle.std.specs.Prelude.{◌≡◌, ◌+◌, ◌-◌, ◌<◌};
ghost use Rattle.walks.specs.Walk.{rows_in, columns_in};
ghost use Rattle.bursts.specs.Burst.{burst, later, figure_burst, character_burst, whole_rows, rows_ahead, after_row};

use dots::Cursor;
use registers::Work;
use walks::{Brush, next_row};

// How many units were done, where they led, and what is in progress then.
#[derive(Clone, Copy)]
pub struct Burst {
    pub count: u32,
    pub cursor: Cursor,
    pub work: Work,
}

// The dots from dot k on, before the last of all.
pub fn before_last(k: u32, all: u32) -> u32
    ensures { result ≡ all - 1 - k }
{
    all.saturating_sub(1).saturating_sub(k)
}

// At most so many units of the figure whose dot k is next, with its running D.
pub fn figure(mem: &mut [u16], b: Brush, c: Cursor, k: u32, d: u16, most: u32) -> Burst
    ensures { burst result mem.new ≡ figure_burst b most k d c mem.old }
{
    let n = most.min(before_last(k, registers::dots_of(b.drawing)));
    let end = k + n;
    let q = walks::figure_dots(mem, b, c, d, k, end);
    if n < most {
        walks::steps::dot(mem, b, q.cursor, end);
        return Burst {
            count: n + 1,
            cursor: q.cursor,
            work: Work::Idle,
        };
    }
    Burst {
        count: n,
        cursor: q.cursor,
        work: Work::Figure { dot: end, d: q.d },
    }
}

// The whole rows that so many units have room for, at most those left.
fn whole_rows(most: u32, columns: u32, left: u32) -> u32
    ensures { result ≡ whole_rows most columns left }
{
    if columns == 0 {
        return 0;
    }
    (most / columns).min(left)
}

// A row has ended after so many units, with at most so many more: whole rows before the last, or the character's end.
fn after_row(
    mem: &mut [u16],
    b: Brush,
    c: Cursor,
    row: u32,
    start: Cursor,
    done: u32,
    most: u32,
) -> Burst
    requires { done + most < 4294967296 }
    ensures { burst result mem.new ≡ later done (after_row b most row start c mem.old) }
{
    let rows = registers::rows_of(b.drawing, b.zoom);
    if rows as u64 <= row as u64 + 1 {
        return Burst {
            count: done,
            cursor: c,
            work: Work::Idle,
        };
    }
    let columns = registers::columns_of(b.drawing, b.zoom);
    let whole = whole_rows(most, columns, rows - row - 2);
    let first = row + 1;
    let end = first + whole;
    let s = walks::rows_dots(mem, b, first, next_row(b, start), end);
    Burst {
        count: done + whole * columns,
        cursor: s,
        work: Work::Character {
            row: end,
            column: 0,
            start: s,
        },
    }
}

// At most so many units of a character: what is left of the row, and whole rows before the last.
pub fn character(
    mem: &mut [u16],
    b: Brush,
    c: Cursor,
    row: u32,
    column: u32,
    start: Cursor,
    most: u32,
) -> Burst
    ensures { burst result mem.new ≡ character_burst b (rows_ahead most row column (rows_in b) (columns_in b)) row column start c
        mem.old }
{
    let n = most.min(before_last(column, registers::columns_of(b.drawing, b.zoom)));
    let end = column + n;
    let at = walks::row_dots(mem, b, row, column, c, end);
    if most <= n {
        return Burst {
            count: n,
            cursor: at,
            work: Work::Character {
                row,
                column: end,
                start,
            },
        };
    }
    walks::steps::letter(mem, b, at, row, end);
    after_row(mem, b, at, row, start, n + 1, most - n - 1)
}
