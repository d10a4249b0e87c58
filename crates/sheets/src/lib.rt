// The translator of drawing sheets: after the checks of crate refusals, a pass to count the entries, one to write them.
#![tactic(auto)]

ghost use Rattle.std.specs.Prelude.{◌≡◌, ◌+◌};
ghost use Rattle.blocks.specs.Refused.{answered};
ghost use Rattle.entries.specs.Entries.{placed};
ghost use Rattle.sheets.specs.Slots.{slot_figures, listed, figures, sized, translated, translation};
ghost use Rattle.sheets.specs.Sheet.{outcome, translate_def};

use blocks::Refused;
use records::{Record, Room};
use refusals::{BLOCK_BYTES, RECORDS};

// The command PITCH as an entry.
const PITCH: u16 = 0x147;

// A slot's figure, where the slot is used and its record is no refusal.
pub fn slot_figure(s: &[u8], k: u16, m: Room) -> Option<Record>
    ensures { listed result ≡ slot_figures s.now m k }
{
    if !refusals::used(s, k) {
        return None;
    }
    let Ok(r) = refusals::slot_decoded(s, k, m) else {
        return None;
    };
    Some(r)
}

// How many entries a slot takes.
fn slot_size(s: &[u8], k: u16, m: Room) -> u32
    ensures { result ≡ sized (slot_figures s.now m k) }
{
    match slot_figure(s, k, m) {
        Some(r) => entries::size_of(r),
        None => 0,
    }
}

// How many entries PITCH P and the figures take.
fn entries_needed(s: &[u8], n: u8, m: Room) -> u32
    ensures { result ≡ 2 + sized (figures s.now m n) }
{
    let mut need: u32 = 2;
    for k in 0..RECORDS * n as u16 {
        need += slot_size(s, k, m);
    }
    need
}

// The entries of slot k go into out from at on; how many they are.
fn put_slot(out: &mut [u16], at: u32, s: &[u8], k: u16, m: Room, t: &[u8], p: u8) -> u32
    ensures { (result ≡ sized (slot_figures s.now m k))
        × (out.new ≡ placed out.old at (translated t.now p (slot_figures s.now m k))) }
{
    let Some(r) = slot_figure(s, k, m) else {
        return 0;
    };
    entries::put_record(out, at, t, p, r);
    entries::size_of(r)
}

// PITCH P and the figures' entries, from the output's start on.
fn write_out(out: &mut [u16], s: &[u8], n: u8, m: Room, t: &[u8], p: u8)
    ensures { out.new ≡ placed out.old 0 (translation t.now p (figures s.now m n)) }
{
    entries::put(out, 0, &[PITCH, p as u16]);
    let mut at: u32 = 2;
    for k in 0..RECORDS * n as u16 {
        at += put_slot(out, at, s, k, m, t, p);
    }
}

// The sheet s becomes entries at the output's start, for a plane of P words by H lines and the glyph table t; how many they are.
pub fn translate(s: &[u8], p: u32, h: u32, t: &[u8], out: &mut [u16]) -> Result<u32, Refused>
    ensures { outcome (answered result) out.new ≡ translate_def s.now p h t.now out.old }
{
    refusals::sheet_refusal(s, p, h, t)?;
    let words = p as u8;
    let n = (s.len() / BLOCK_BYTES) as u8;
    let m = refusals::room_of(words, h as u16, t.len() as u16);
    let need = entries_needed(s, n, m);
    if out.len() < need as usize {
        return Err(Refused::Short(need));
    }
    write_out(out, s, n, m, t, words);
    Ok(need)
}
