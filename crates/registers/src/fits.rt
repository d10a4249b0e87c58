// The test that a register set is sound: each part within its width, the place reached inside its figure or read.
#![tactic(auto, unfolding(crate::specs::Sound::sound_b))]

ghost use Rattle.std.specs.Prelude.{◌≡◌, take};
ghost use Rattle.registers.specs.declared.Mode.TheVariants.{Read};
ghost use Rattle.registers.specs.Sound.{
  all_below,
  cursor_b,
  drawing_b,
  buffer_b,
  running_b,
  place_b,
  work_b,
  sound_b,
};

use super::sizes::{arc_cycles_of, columns_of, cycles_left, dots_of, rows_of};
use super::{
    Buffer, COMMAND_MARK, DIRECTIONS, Drawing, ENTRY_END, FOURTEEN_BITS, KINDS, Mode, PARAMETERS,
    PLACES, Registers, Running, Work,
};
use dots::Cursor;

pub fn cursor_fits(c: Cursor) -> bool
    ensures { result ≡ cursor_b c }
{
    c.ead < dots::ADDRESSES
}

pub fn drawing_fits(f: Drawing) -> bool
    ensures { result ≡ drawing_b f }
{
    (f.kind < KINDS)
        & (f.dir < DIRECTIONS)
        & (f.dc < FOURTEEN_BITS)
        & (f.d < FOURTEEN_BITS)
        & (f.d2 < FOURTEEN_BITS)
        & (f.d1 < FOURTEEN_BITS)
        & (f.dm < FOURTEEN_BITS)
}

// The copies of an arc have 14 bits.
pub fn running_fits(a: Running) -> bool
    ensures { result ≡ running_b a }
{
    (a.d < FOURTEEN_BITS) & (a.d1 < FOURTEEN_BITS) & (a.d2 < FOURTEEN_BITS)
}

// The first n of the entries are below a bound. No early way out, so that the entries are compared side by side.
fn entries_fit(entries: [u16; 16], below: u16, n: u16) -> bool
    ensures { result ≡ all_below below (take n entries) }
{
    let mut fit = true;
    for (i, e) in entries.iter().enumerate() {
        fit &= (n <= i as u16) | (*e < below);
    }
    fit
}

// In read mode all sixteen are asked for bytes first: those that are held are, if all are, and few sets have more behind them.
fn bytes_fit(b: Buffer) -> bool
    ensures { result ≡ buffer_b Read b }
{
    if entries_fit(b.entries, COMMAND_MARK, PLACES as u16) {
        return b.count <= PLACES;
    }
    (b.count <= PLACES)
        & entries_fit(b.entries, ENTRY_END, PLACES as u16)
        & entries_fit(b.entries, COMMAND_MARK, b.count as u16)
}

// In write mode a held entry has the bound of every other.
pub fn buffer_fits(m: Mode, b: Buffer) -> bool
    ensures { result ≡ buffer_b m b }
{
    match m {
        Mode::Write => (b.count <= PLACES) & entries_fit(b.entries, ENTRY_END, PLACES as u16),
        Mode::Read => bytes_fit(b),
    }
}

pub fn place_fits(f: Drawing, zoom: u8, w: Work) -> bool
    ensures { result ≡ place_b f zoom w }
{
    match w {
        Work::Idle => true,
        Work::Figure { dot, d } => (dot < dots_of(f)) & (d < FOURTEEN_BITS),
        Work::Arc { cycle, running } => (cycle < arc_cycles_of(f)) & running_fits(running),
        Work::Character { row, column, start } => {
            (row < rows_of(f, zoom)) & (column < columns_of(f, zoom)) & cursor_fits(start)
        }
        Work::Reading { item, .. } => item < f.dc,
    }
}

// A figure in write mode, a read in read mode.
pub fn work_fits(m: Mode, w: Work) -> bool
    ensures { result ≡ work_b m w }
{
    match w {
        Work::Idle => true,
        Work::Figure { .. } | Work::Arc { .. } | Work::Character { .. } => m == Mode::Write,
        Work::Reading { .. } => m == Mode::Read,
    }
}

// A sound register set.
pub fn sound(r: Registers) -> bool
    ensures { result ≡ sound_b r }
{
    cursor_fits(r.cursor)
        & drawing_fits(r.drawing)
        & (r.pen.address < dots::ADDRESSES)
        & (r.progress.next <= PARAMETERS)
        & buffer_fits(r.mode, r.buffer)
        & place_fits(r.drawing, r.video.zoom, r.work)
        & work_fits(r.mode, r.work)
        & (r.remaining == cycles_left(r.drawing, r.video.zoom, r.work))
}
