// A cursor whose mask is one bit stands at a bit address, of 22 bits: a step is a sum on it.
ghost use Rattle.std.specs.Prelude.{◌≡◌, ◌<◌, MatchOption};
ghost use Rattle.walks.specs.Address.{Address, Stride};

use dots::Cursor;

// The bit address of a cursor whose mask is one bit.
pub fn address_of(c: Cursor) -> Option<u32>
    ensures { MatchOption result (Address c 4194304) (λ a. (a < 4194304) × Address c a) }
{
    if dots::ADDRESSES <= c.ead {
        return None;
    }
    let at = c.ead * 16 + u16::trailing_zeros(c.mask) % 16;
    if dots::cursor_at(at).mask == c.mask {
        return Some(at);
    }
    None
}

// What a step along a direction adds to the bit address.
pub fn stride(dir: u8, pitch: u8) -> u32
    ensures { Stride dir pitch result }
{
    let line = 16 * pitch as u32;
    match dir {
        0 => line,
        1 => line + 1,
        2 => 1,
        3 => 4194305 - line,
        4 => 4194304 - line,
        5 => 4194303 - line,
        6 => 4194303,
        _ => line + 4194303,
    }
}
