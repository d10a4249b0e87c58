// The status byte.
#![tactic(auto, unfolding(crate::specs::Status::one_if, crate::specs::Status::status_of))]

ghost use Rattle.std.specs.Prelude.{◌≡◌, ◌&&◌, ◌+◌, ◌*◌, eqb, ltb};
ghost use Rattle.registers.specs.Width.{places};
ghost use Rattle.status.specs.Status.{one_if, figure_in_progress_b, read_mode_b, status_of};

use registers::{Mode, Registers, Work};

// A figure is in progress.
fn figure_in_progress(w: Work) -> bool
    ensures { result ≡ figure_in_progress_b w }
{
    matches!(
        w,
        Work::Figure { .. } | Work::Arc { .. } | Work::Character { .. }
    )
}

fn is_read(m: Mode) -> bool
    ensures { result ≡ read_mode_b m }
{
    matches!(m, Mode::Read)
}

// The status byte, of what it tells: the light pen, a figure, how many entries are held, read mode.
pub fn status_by(pen: bool, drawing: bool, count: u8, reading: bool) -> u8
    ensures { result
        ≡ 128 * one_if pen + 8 * one_if drawing + 4 * one_if (eqb count 0) + 2 * one_if (eqb count places) + one_if
        (reading && ltb 0 count) }
{
    let empty = count == 0;
    let full = count == registers::PLACES;
    let ready = reading & (0 < count);
    128 * u8::from(pen)
        + 8 * u8::from(drawing)
        + 4 * u8::from(empty)
        + 2 * u8::from(full)
        + u8::from(ready)
}

// The status byte of a register set.
pub fn status_of(r: Registers) -> u8
    ensures { result ≡ status_of r }
{
    status_by(
        r.pen.set,
        figure_in_progress(r.work),
        r.buffer.count,
        is_read(r.mode),
    )
}
