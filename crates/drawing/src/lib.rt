// A sheet is drawn: it is translated, and its entries are sent to the controller one at a time, with a run after each.
#![tactic(auto)]

ghost use Rattle.std.specs.Prelude.{◌≡◌};
ghost use Rattle.drawing.specs.declared.Refusal.TheVariants.{Run, Sheet};
ghost use Rattle.drawing.specs.Draw.{outcome, larger_b, sheet_drawn};
ghost use Rattle.drawing.specs.Refused.{refused, answered};

use blocks::{Answer, Refused};
use registers::Registers;

// Why a drawing is refused: what refuses a run, a picture larger than the memory, or the sheet.
#[derive(Clone, Copy)]
pub enum Refusal {
    Run(units::Refusal),
    Larger,
    Sheet(Refused),
}

// What was drawn: the entries of the sheet, their units and those of what was waiting before it, and the registers.
#[derive(Clone, Copy)]
pub struct Picture {
    pub entries: u32,
    pub units: u64,
    pub earlier: u64,
    pub regs: Registers,
}

// What a drawing answers, in numbers: a number of refusal with its two values, the units of the sheet and those of what was waiting
// before it, and the registers.
#[derive(Clone, Copy)]
pub struct Drawn {
    pub number: u8,
    pub first: u32,
    pub second: u32,
    pub units: u64,
    pub earlier: u64,
    pub regs: Registers,
}

impl From<units::Refusal> for Refusal {
    ghost from_gives = { λ w q. q ≡ Run w };

    fn from(w: units::Refusal) -> Refusal {
        Refusal::Run(w)
    }
}

impl From<Refused> for Refusal {
    ghost from_gives = { λ w q. q ≡ Sheet w };

    fn from(w: Refused) -> Refusal {
        Refusal::Sheet(w)
    }
}

impl Refusal {
    // The number and the values of a refusal.
    pub fn answer(self) -> Answer
        ensures { result ≡ refused self }
    {
        let number = match self {
            Refusal::Run(why) => u8::from(why),
            Refusal::Larger => 23,
            Refusal::Sheet(why) => return why.answer(),
        };
        Answer {
            number,
            first: 0,
            second: 0,
        }
    }
}

// The answer in numbers to a drawing with the registers r; a refusal has the set given, and no units.
pub fn told(r: Registers, d: Result<Picture, Refusal>) -> Drawn
    ensures { result ≡ answered r d }
{
    match d {
        Ok(q) => Drawn {
            number: 0,
            first: q.entries,
            second: 0,
            units: q.units,
            earlier: q.earlier,
            regs: q.regs,
        },
        Err(why) => {
            let a = why.answer();
            Drawn {
                number: a.number,
                first: a.first,
                second: a.second,
                units: 0,
                earlier: 0,
                regs: r,
            }
        }
    }
}

// Whether a picture of P words by H lines, both in range, is larger than a memory of so many words.
fn larger(p: u32, h: u32, words: usize) -> bool
    ensures { result ≡ larger_b p h words }
{
    refusals::plane_fits(p, h) & ((words as u64) < p as u64 * h as u64)
}

// Draws the sheet in a plane of P words by H lines at the memory's start, with the glyph table; entries is room for the translation.
pub fn draw_sheet(
    sheet: &[u8],
    p: u32,
    h: u32,
    glyphs: &[u8],
    r: Registers,
    entries: &mut [u16],
    mem: &mut [u16],
) -> Result<Picture, Refusal>
    ensures { outcome (answered r result) entries.new mem.new
        ≡ sheet_drawn sheet.now p h glyphs.now r entries.old mem.old }
{
    units::accepted(r, mem.len())?;
    if larger(p, h, mem.len()) {
        return Err(Refusal::Larger);
    }
    let written = sheets::translate(sheet, p, h, glyphs, entries)?;
    let w = finishing::finish(r, mem);
    let q = lists::send_all(w.regs, &entries[..written as usize], mem);
    Ok(Picture {
        entries: written,
        units: q.units,
        earlier: w.units,
        regs: q.regs,
    })
}
