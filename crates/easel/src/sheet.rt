// The lines to the sheet: its translation, its cost and its drawing.
ghost use Rattle.std.specs.Prelude.{◌≡◌, ◌≤◌, length};
ghost use Rattle.registers.specs.State.{state};
ghost use Rattle.sheets.specs.Sheet.{outcome as translatedTo};
ghost use Rattle.finishing.specs.Finish.{outcome};
ghost use Rattle.easel.specs.Parts.{part_of};
ghost use Rattle.easel.specs.Drawing.{translated_in, cost_told, played, played_within, drawing_told, drew, drawing_done};

use crate::paper::{sheet_of, table_of};
use console::desk::{Desk, Done, Reply};
use console::output::Output;
use finishing::Sent;
use registers::Registers;

// The sheet is translated into a room of that many entries.
#[tactic(auto, unfolding(crate::specs::Drawing::translated_in))]
fn translated(d: Desk, papers: &[u8], entries: &mut [u16], room: usize) -> blocks::Answer
    ensures { translatedTo result entries.new ≡ translated_in d papers.now entries.old room }
{
    let n = buffers::used(room, entries);
    blocks::told(sheets::translate(
        sheet_of(papers, d.sheet),
        d.across,
        d.down,
        table_of(papers, d.glyphs),
        &mut entries[..n],
    ))
}

// The answer to a translation: its numbers, and the entries of one that was accepted.
fn translation_told(a: blocks::Answer, entries: &[u16], out: &mut Output) {
    let values = [a.number as u64, a.first as u64, a.second as u64];
    out.begun(b'T', &values);
    if a.number == 0 {
        out.fields(buffers::part(a.first as usize, entries), 4);
    }
    out.character(b'\n');
}

// What `T n` writes. No translation is longer than the entries that are lent here, so a greater
// room changes nothing.
pub fn translation(d: Desk, room: u32, papers: &[u8], out: &mut Output) {
    let mut entries = [0u16; 128802];
    let a = translated(d, papers, &mut entries, room as usize);
    translation_told(a, &entries, out);
}

// `K`
pub fn cost(d: Desk, papers: &[u8]) -> Reply
    ensures { result ≡ cost_told d papers.now }
{
    let c = costs::told(costs::cost_of(
        sheet_of(papers, d.sheet),
        d.across,
        d.down,
        table_of(papers, d.glyphs),
    ));
    Reply::Four(
        b'K',
        c.number as u64,
        c.first as u64,
        c.second as u64,
        c.units,
    )
}

// Each entry is sent and the controller run until it is idle, or a read awaits room; one that is refused changes nothing.
fn send_all(r: Registers, entries: &[u16], mem: &mut [u16]) -> Sent
    requires { length entries.now ≤ 128802 }
    ensures { outcome result mem.new ≡ played (state r mem.old) entries.now }
{
    let mut regs = r;
    let mut units: u64 = 0;
    for &e in entries {
        let s = finishing::finish(sends::to_port(regs, e), mem);
        regs = s.regs;
        units += s.units;
    }
    Sent { regs, units }
}

// The first n entries are sent, over the words that the memory has.
#[tactic(auto, unfolding(crate::specs::Drawing::played_within))]
fn send_within(r: Registers, entries: &[u16], n: u32, mem: &mut [u16], most: usize) -> Sent
    requires { length entries.now ≤ 128802 }
    ensures { outcome result mem.new ≡ played_within r (part_of n entries.now) mem.old most }
{
    let words = buffers::used(most, mem);
    send_all(r, buffers::part(n as usize, entries), &mut mem[..words])
}

// The answer to `X`.
fn drawing_done(a: blocks::Answer, s: Sent) -> Done
    ensures { result ≡ drawing_told a s }
{
    Done {
        regs: s.regs,
        reply: Reply::Four(
            b'X',
            a.number as u64,
            a.first as u64,
            a.second as u64,
            s.units,
        ),
    }
}

// `X`
#[tactic(auto, unfolding(crate::specs::Drawing::drawing_done))]
pub fn drawing(r: Registers, d: Desk, mem: &mut [u16], papers: &[u8]) -> Done
    ensures { drew result mem.new ≡ drawing_done r d mem.old papers.now }
{
    let mut entries = [0u16; 128802];
    let a = translated(d, papers, &mut entries, 128802);
    if a.number != 0 {
        return drawing_done(a, Sent { regs: r, units: 0 });
    }
    drawing_done(a, send_within(r, &entries, a.first, mem, d.words))
}
