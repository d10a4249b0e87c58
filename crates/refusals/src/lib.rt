// Whether a sheet is refused, with which number, 11 to 19, and with which values.
#![tactic(auto)]

ghost use Rattle.std.specs.Prelude.{◌≡◌, ◌/◌, ◌%◌};
ghost use Rattle.blocks.specs.Refused.{checked, checked_at};
ghost use Rattle.refusals.specs.Refusals.{used_b, slot_decoded, slot_answer, records_checked};
ghost use Rattle.refusals.specs.Refusals.{plane_b, table_b, sheet_length_b, plane_refusal, table_refusal, length_refusal, frame_refusal};
ghost use Rattle.refusals.specs.Refusals.{room_of, sheet_refusal};

use blocks::Refused;
use records::{Record, Refusal, Room};

// A block's bytes and its records; a glyph's bytes.
pub const BLOCK_BYTES: usize = records::BLOCK_BYTES as usize;

pub const RECORDS: u16 = blocks::FIGURES as u16;

const GLYPH_BYTES: usize = 8;

// Slot k is record k % 50 of block k / 50: whether the block's count reaches it.
pub fn used(s: &[u8], k: u16) -> bool
    ensures { result ≡ used_b s.now k }
{
    let count = records::byte_at(s, BLOCK_BYTES * (k / RECORDS) as usize + 2);
    k % RECORDS < count as u16
}

// What a slot's record stands for.
pub fn slot_decoded(s: &[u8], k: u16, m: Room) -> Result<Record, Refusal>
    ensures { result ≡ slot_decoded s.now m k }
{
    records::judge(
        m,
        records::decode_record(s, k / RECORDS, k % RECORDS, m.glyphs),
    )
}

// A slot whose record is refused; an unused one is not.
fn check_slot(s: &[u8], k: u16, m: Room) -> Result<(), Refused>
    ensures { checked_at (k / 50) (k % 50) result ≡ slot_answer s.now m k }
{
    if !used(s, k) {
        return Ok(());
    }
    match slot_decoded(s, k, m) {
        Ok(_) => Ok(()),
        Err(why) => Err(Refused::Slot {
            block: k / RECORDS,
            index: k % RECORDS,
            why: why.into(),
        }),
    }
}

// The first record that is refused.
fn check_records(s: &[u8], n: u8, m: Room) -> Result<(), Refused>
    ensures { checked result ≡ records_checked s.now m n }
{
    for k in 0..RECORDS * n as u16 {
        check_slot(s, k, m)?;
    }
    Ok(())
}

// P, H and P.H are in range.
pub fn plane_fits(p: u32, h: u32) -> bool
    ensures { result ≡ plane_b p h }
{
    let area = p as u64 * h as u64;
    (1 <= p) & (p <= 255) & (1 <= h) & (h <= 4096) & (area <= 262144)
}

// So many bytes are a table of glyphs.
pub fn table_fits(g: usize) -> bool
    ensures { result ≡ table_b g }
{
    (g % GLYPH_BYTES == 0) & (g <= 2048)
}

// So many bytes are a sheet's.
pub fn sheet_fits(l: usize) -> bool
    ensures { result ≡ sheet_length_b l }
{
    (l % BLOCK_BYTES == 0) & (1 <= l / BLOCK_BYTES) & (l / BLOCK_BYTES <= 16)
}

pub fn plane_refusal(p: u32, h: u32) -> Result<(), Refused>
    ensures { checked result ≡ plane_refusal p h }
{
    blocks::refusal_unless(plane_fits(p, h), Refused::Plane)
}

pub fn table_refusal(g: usize) -> Result<(), Refused>
    ensures { checked result ≡ table_refusal g }
{
    blocks::refusal_unless(table_fits(g), Refused::Table)
}

pub fn length_refusal(l: usize) -> Result<(), Refused>
    ensures { checked result ≡ length_refusal l }
{
    blocks::refusal_unless(sheet_fits(l), Refused::Length)
}

// The plane, the glyph table's length and the sheet's.
fn frame_refusal(p: u32, h: u32, g: usize, l: usize) -> Result<(), Refused>
    ensures { checked result ≡ frame_refusal p h g l }
{
    plane_refusal(p, h)?;
    table_refusal(g)?;
    length_refusal(l)
}

// What there is, for P words by H lines and a table of g bytes; in range they are of these types.
pub fn room_of(p: u8, h: u16, g: u16) -> Room
    ensures { result ≡ room_of p h g }
{
    Room {
        across: 16 * p as u16,
        down: h,
        glyphs: g / GLYPH_BYTES as u16,
    }
}

// The first refusal of the sheet s, for a plane of P words by H lines and the glyph table t; all but that of an output too short.
pub fn sheet_refusal(s: &[u8], p: u32, h: u32, t: &[u8]) -> Result<(), Refused>
    ensures { checked result ≡ sheet_refusal s.now p h t.now }
{
    frame_refusal(p, h, t.len(), s.len())?;
    let n = (s.len() / BLOCK_BYTES) as u8;
    let m = room_of(p as u8, h as u16, t.len() as u16);
    blocks::check_blocks(s, n)?;
    check_records(s, n, m)
}
