// The blocks of a drawing sheet: their checks, headings, spare bytes and unused records.
#![tactic(auto)]

ghost use Rattle.std.specs.Prelude.{◌≡◌};
ghost use Rattle.blocks.specs.Answer.{unless};
ghost use Rattle.blocks.specs.Refused.{fault_of, fault_number, refused, checked, checked_at, answered};
ghost use Rattle.blocks.specs.Block.{check_of, zeros_b, head_b, block_answer, blocks_checked};

use records::{BLOCK_BYTES, RECORD_BYTES, RECORDS_AT, Refusal};

// The words of a block that its check sums up, and what the sum starts from.
const WORDS: u32 = 255;

const CHECK_START: u16 = 7220;

// Where a block's check and its spare bytes stand, and how many bytes these and the records have.
const CHECK_AT: u32 = 510;

const SPARE_AT: u32 = 504;

const SPARE_BYTES: u32 = 6;

const RECORDS_BYTES: u32 = 500;

// How many figures a block may have.
pub const FIGURES: u8 = 50;

// What is wrong with a record, one case for each of its numbers: its form, a glyph's number, a factor or a radius, a dot outside.
#[derive(Clone, Copy, PartialEq, Eq)]
pub enum Fault {
    Form,
    GlyphNumber,
    Size,
    Outside,
}

impl From<Refusal> for Fault {
    ghost from_gives = { λ w f. f ≡ fault_of w };

    fn from(w: Refusal) -> Fault {
        match w {
            Refusal::Form => Fault::Form,
            Refusal::GlyphNumber => Fault::GlyphNumber,
            Refusal::Factor | Refusal::Radius => Fault::Size,
            Refusal::Outside => Fault::Outside,
        }
    }
}

impl Fault {
    // The number of a record's refusal.
    pub fn number(self) -> u8
        ensures { result ≡ fault_number self }
    {
        match self {
            Fault::Form => 16,
            Fault::GlyphNumber => 17,
            Fault::Size => 18,
            Fault::Outside => 19,
        }
    }
}

// Why a sheet is refused: the plane, the glyph table, the sheet's length; a block's check, or its heading, spare bytes or unused records;
// a record; an output shorter than the entries needed.
#[derive(Clone, Copy)]
pub enum Refused {
    Plane,
    Table,
    Length,
    Check(u16),
    Heading(u16),
    Slot { block: u16, index: u16, why: Fault },
    Short(u32),
}

// An answer in numbers, as it is printed and as C has it: the number of the refusal or 0, and the two values with it.
#[derive(Clone, Copy)]
pub struct Answer {
    pub number: u8,
    pub first: u32,
    pub second: u32,
}

impl Refused {
    // The number and the values of a refusal.
    pub fn answer(self) -> Answer
        ensures { result ≡ refused self }
    {
        let (number, first, second) = match self {
            Refused::Plane => (11, 0, 0),
            Refused::Table => (12, 0, 0),
            Refused::Length => (13, 0, 0),
            Refused::Check(block) => (14, u32::from(block), 0),
            Refused::Heading(block) => (15, u32::from(block), 0),
            Refused::Slot { block, index, why } => {
                (why.number(), u32::from(block), u32::from(index))
            }
            Refused::Short(needed) => (20, needed, 0),
        };
        Answer {
            number,
            first,
            second,
        }
    }
}

// The answer of a translation in numbers, with the entries written where it is accepted.
pub fn told(r: Result<u32, Refused>) -> Answer
    ensures { result ≡ answered r }
{
    match r {
        Ok(written) => Answer {
            number: 0,
            first: written,
            second: 0,
        },
        Err(why) => why.answer(),
    }
}

// A refusal where a test fails.
pub fn refusal_unless<E: Copy>(ok: bool, why: E) -> Result<(), E>
    ensures { result ≡ unless ok why }
{
    if ok { Ok(()) } else { Err(why) }
}

// A block's check: the sum of its 255 words before the last, plus 7220, modulo 65,536.
fn check_sum(s: &[u8], b: u16) -> u16
    ensures { result ≡ check_of s.now b }
{
    let mut sum = CHECK_START;
    for i in 0..WORDS {
        sum = sum.wrapping_add(records::word_at(s, BLOCK_BYTES * u32::from(b) + 2 * i));
    }
    sum
}

// The n bytes at a place are zero.
fn zeros(s: &[u8], at: u32, n: u32) -> bool
    ensures { result ≡ zeros_b n s.now at }
{
    for i in 0..n {
        if records::byte_at(s, at as usize + i as usize) != 0 {
            return false;
        }
    }
    true
}

// A block's heading, its spare bytes and its unused records.
fn headed(s: &[u8], b: u16, n: u8) -> bool
    ensures { result ≡ head_b s.now n b }
{
    let at = BLOCK_BYTES * b as u32;
    let number = records::word_at(s, at);
    let count = records::byte_at(s, at as usize + 2);
    if FIGURES < count {
        return false;
    }
    let last = records::byte_at(s, at as usize + 3);
    let used = RECORD_BYTES * count as u32;
    let spare = zeros(s, at + SPARE_AT, SPARE_BYTES);
    let unused = zeros(s, at + RECORDS_AT + used, RECORDS_BYTES - used);
    (number == b) & (last == (b as u32 + 1 == n as u32) as u8) & spare & unused
}

// Block b of n: its check, then its heading.
fn check_block(s: &[u8], b: u16, n: u8) -> Result<(), Refused>
    ensures { checked_at b 0 result ≡ block_answer s.now n b }
{
    if check_sum(s, b) != records::word_at(s, BLOCK_BYTES * b as u32 + CHECK_AT) {
        return Err(Refused::Check(b));
    }
    if !headed(s, b, n) {
        return Err(Refused::Heading(b));
    }
    Ok(())
}

// The first of n blocks that is refused.
pub fn check_blocks(s: &[u8], n: u8) -> Result<(), Refused>
    ensures { checked result ≡ blocks_checked s.now n }
{
    for b in 0..n as u16 {
        check_block(s, b, n)?;
    }
    Ok(())
}
