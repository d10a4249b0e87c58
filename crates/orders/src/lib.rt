// What a line of the bench's script asks for: its letter, and the range of each of its numbers (docs/BENCH.md).
#![tactic(auto)]

ghost use Rattle.std.specs.Prelude.{◌≡◌};
ghost use Rattle.orders.specs.Order.{
  byte_order,
  wide_order,
  word_order,
  size_order,
  field_order,
  count_order,
  wiring_order,
  put_order,
  bare_order,
  one_order,
  two_order,
  bytes_order,
  order_of,
};

use dots::Wiring;
use script::Line;

// To the ports.
#[derive(Clone, Copy)]
pub enum Port {
    Command(u8),
    Parameter(u8),
    Pen(u32),
    Read,
    Status,
}

// To the memory: a fresh one of a wiring, a word of it, a run over it.
#[derive(Clone, Copy)]
pub enum Memory {
    Fresh(Wiring, u64),
    Word(u64, u16),
    Run(u32),
}

// To be shown: the registers, words of the memory, its digest; of the register set the count of cycles left, and the wiring.
#[derive(Clone, Copy)]
pub enum Show {
    Registers,
    Words(u64, u64),
    Digest,
    Counted,
    Wired,
}

// To the papers that a translation needs: the picture's size, the glyph table, the sheet.
#[derive(Clone, Copy)]
pub enum Paper {
    Size(u32, u32),
    NoGlyphs,
    Glyphs,
    NoSheet,
    More,
}

// What a line asks for; of the sheet its translation into a room of entries, and its drawing; of the register set another count of cycles
// left, or wiring.
#[derive(Clone, Copy)]
pub enum Order {
    Unknown,
    OfPort(Port),
    OfMemory(Memory),
    OfShow(Show),
    OfPaper(Paper),
    Translate(u32),
    Draw,
    Count(u64),
    Wire(Wiring),
}

// A letter and a byte.
#[tactic(auto, unfolding(crate::specs::Order::byte_order))]
fn byte_order(letter: u8, n: u32) -> Order
    ensures { result ≡ byte_order letter n }
{
    let Ok(b) = u8::try_from(n) else {
        return Order::Unknown;
    };
    match letter {
        b'C' => Order::OfPort(Port::Command(b)),
        b'P' => Order::OfPort(Port::Parameter(b)),
        _ => Order::Unknown,
    }
}

// A letter and a number of 32 bits.
#[tactic(auto, unfolding(crate::specs::Order::wide_order))]
fn wide_order(letter: u8, n: u64) -> Order
    ensures { result ≡ wide_order letter n }
{
    let Ok(m) = u32::try_from(n) else {
        return Order::Unknown;
    };
    match letter {
        b'L' => Order::OfPort(Port::Pen(m)),
        b'U' => Order::OfMemory(Memory::Run(m)),
        b'T' => Order::Translate(m),
        b'O' => Order::OfMemory(Memory::Fresh(Wiring::Open, n)),
        _ => byte_order(letter, m),
    }
}

// `W a v`
#[tactic(auto, unfolding(crate::specs::Order::word_order))]
fn word_order(a: u64, v: u64) -> Order
    ensures { result ≡ word_order a v }
{
    let Ok(word) = u16::try_from(v) else {
        return Order::Unknown;
    };
    Order::OfMemory(Memory::Word(a, word))
}

// `Q p h`
#[tactic(auto, unfolding(crate::specs::Order::size_order))]
fn size_order(p: u64, h: u64) -> Order
    ensures { result ≡ size_order p h }
{
    let Ok(across) = u32::try_from(p) else {
        return Order::Unknown;
    };
    let Ok(down) = u32::try_from(h) else {
        return Order::Unknown;
    };
    Order::OfPaper(Paper::Size(across, down))
}

// `F request`: a field that a request added to the register set. Its number is decimal as it is printed, and was read as hexadecimal.
#[tactic(auto, unfolding(crate::specs::Order::field_order))]
fn field_order(request: u64) -> Order
    ensures { result ≡ field_order request }
{
    match request {
        0x103 => Order::OfShow(Show::Counted),
        0x108 => Order::OfShow(Show::Wired),
        _ => Order::Unknown,
    }
}

// `J 103 v`
#[tactic(auto, unfolding(crate::specs::Order::count_order))]
fn count_order(v: u64) -> Order
    ensures { result ≡ count_order v }
{
    match u32::try_from(v) {
        Ok(_) => Order::Count(v),
        Err(_) => Order::Unknown,
    }
}

// `J 108 v`
#[tactic(auto, unfolding(crate::specs::Order::wiring_order))]
fn wiring_order(v: u64) -> Order
    ensures { result ≡ wiring_order v }
{
    match v {
        0 => Order::Wire(Wiring::Folded),
        1 => Order::Wire(Wiring::Open),
        _ => Order::Unknown,
    }
}

// `J request v`: such a field becomes v.
#[tactic(auto, unfolding(crate::specs::Order::put_order))]
fn put_order(request: u64, v: u64) -> Order
    ensures { result ≡ put_order request v }
{
    match request {
        0x103 => count_order(v),
        0x108 => wiring_order(v),
        _ => Order::Unknown,
    }
}

// A letter alone.
#[tactic(auto, unfolding(crate::specs::Order::bare_order))]
fn bare_order(letter: u8) -> Order
    ensures { result ≡ bare_order letter }
{
    match letter {
        b'R' => Order::OfPort(Port::Read),
        b'S' => Order::OfPort(Port::Status),
        b'D' => Order::OfShow(Show::Registers),
        b'H' => Order::OfShow(Show::Digest),
        b'G' => Order::OfPaper(Paper::NoGlyphs),
        b'Z' => Order::OfPaper(Paper::NoSheet),
        b'X' => Order::Draw,
        _ => Order::Unknown,
    }
}

// A letter and a number.
#[tactic(auto, unfolding(crate::specs::Order::one_order))]
fn one_order(letter: u8, n: u64) -> Order
    ensures { result ≡ one_order letter n }
{
    match letter {
        b'M' => Order::OfMemory(Memory::Fresh(Wiring::Folded, n)),
        b'F' => field_order(n),
        _ => wide_order(letter, n),
    }
}

// A letter and two numbers.
#[tactic(auto, unfolding(crate::specs::Order::two_order))]
fn two_order(letter: u8, a: u64, b: u64) -> Order
    ensures { result ≡ two_order letter a b }
{
    match letter {
        b'W' => word_order(a, b),
        b'V' => Order::OfShow(Show::Words(a, b)),
        b'Q' => size_order(a, b),
        b'J' => put_order(a, b),
        _ => Order::Unknown,
    }
}

// A letter and bytes.
#[tactic(auto, unfolding(crate::specs::Order::bytes_order))]
fn bytes_order(letter: u8) -> Order
    ensures { result ≡ bytes_order letter }
{
    match letter {
        b'G' => Order::OfPaper(Paper::Glyphs),
        b'B' => Order::OfPaper(Paper::More),
        _ => Order::Unknown,
    }
}

// What a line asks for; one that says nothing asks for nothing that is known.
#[tactic(auto, unfolding(crate::specs::Order::order_of))]
pub fn order_of(l: Option<Line>) -> Order
    ensures { result ≡ order_of l }
{
    match l {
        None => Order::Unknown,
        Some(Line::Bare(letter)) => bare_order(letter),
        Some(Line::One(letter, n)) => one_order(letter, n),
        Some(Line::Two(letter, a, b)) => two_order(letter, a, b),
        Some(Line::Bytes(letter)) => bytes_order(letter),
    }
}
