// How large a figure is, and how much of it is left.
ghost use Rattle.std.specs.Prelude.{◌≡◌, ◌-◌};
ghost use Rattle.registers.specs.Size.{factor_of, dots_of, arc_cycles_of, rows_of, columns_of};
ghost use Rattle.registers.specs.Left.{character_left, cycles_left};

use super::{ARC_KIND, CHARACTER_KIND, Drawing, LINE_KIND, PLAIN_KIND, RECTANGLE_KIND, Work};

// The dots of the figure that FIGD draws.
#[tactic(auto, unfolding(crate::specs::Size::dots_of))]
pub fn dots_of(f: Drawing) -> u32
    ensures { result ≡ dots_of f }
{
    match f.kind {
        PLAIN_KIND | LINE_KIND => f.dc as u32 + 1,
        RECTANGLE_KIND => f.d as u32 + f.d2 as u32 + f.d as u32 + f.d2 as u32,
        _ => 0,
    }
}

// The cycles of the arc that FIGD draws.
#[tactic(auto, unfolding(crate::specs::Size::arc_cycles_of))]
pub fn arc_cycles_of(f: Drawing) -> u32
    ensures { result ≡ arc_cycles_of f }
{
    match f.kind {
        ARC_KIND => (f.dc as u32 + 1).saturating_sub(f.dm as u32),
        _ => 0,
    }
}

// ZOOM's low nibble + 1.
#[tactic(auto, unfolding(crate::specs::Size::factor_of))]
pub fn factor_of(zoom: u8) -> u32
    ensures { result ≡ factor_of zoom }
{
    zoom as u32 % 16 + 1
}

// The rows of the character that GCHRD draws.
#[tactic(auto, unfolding(crate::specs::Size::rows_of, crate::specs::Size::factor_of))]
pub fn rows_of(f: Drawing, zoom: u8) -> u32
    ensures { result ≡ rows_of f zoom }
{
    match f.kind {
        CHARACTER_KIND => (f.dc as u32 + 1) * factor_of(zoom),
        _ => 0,
    }
}

// The dots in each of them.
#[tactic(auto, unfolding(crate::specs::Size::columns_of, crate::specs::Size::factor_of))]
pub fn columns_of(f: Drawing, zoom: u8) -> u32
    ensures { result ≡ columns_of f zoom }
{
    f.d as u32 * factor_of(zoom)
}

// The dots of a character from this one on.
#[tactic(auto, unfolding(crate::specs::Left::character_left))]
pub fn character_left(f: Drawing, zoom: u8, row: u32, column: u32) -> u64
    ensures { result ≡ character_left f zoom row column }
{
    let rows = rows_of(f, zoom) as u64;
    let columns = columns_of(f, zoom) as u64;
    (rows * columns).saturating_sub(row as u64 * columns + column as u64)
}

// The cycles still to come of the figure in progress.
pub fn cycles_left(f: Drawing, zoom: u8, w: Work) -> u64
    ensures { result ≡ cycles_left f zoom w }
{
    match w {
        Work::Idle | Work::Reading { .. } => 0,
        Work::Figure { dot, .. } => u64::from(dots_of(f).saturating_sub(dot)),
        Work::Arc { cycle, .. } => u64::from(arc_cycles_of(f).saturating_sub(cycle)),
        Work::Character { row, column, .. } => character_left(f, zoom, row, column),
    }
}
