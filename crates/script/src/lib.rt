// A line of the bench's script: its letter and its fields.
#![tactic(auto)]

ghost use Rattle.std.specs.Prelude.{◌≡◌, ◌<◌, ◌≤◌, ◌==◌, length, position};
ghost use Rattle.std.specs.Option.{SomeIff};
ghost use Rattle.script.specs.Digits.{digit_of, more, number_of, bytes_b, byte_of, bytes_put};
ghost use Rattle.script.specs.Line.{span_of, padded_b, fields_of, line_of};

// What a line says: a letter alone, with a number, with two, or with bytes, two digits each, from the line's third character on.
#[derive(Clone, Copy)]
pub enum Line {
    Bare(u8),
    One(u8, u64),
    Two(u8, u64, u64),
    Bytes(u8),
}

// The value of 0 to 9, and of A to F in upper case; 16 of any other character. So a byte of two digits is put together without a branch.
#[tactic(auto, unfolding(crate::specs::Digits::digit_of))]
fn value_of(b: u8) -> u8
    ensures { result ≡ digit_of b }
{
    match b {
        b'0'..=b'9' => b - 48,
        b'A'..=b'F' => b - 55,
        _ => 16,
    }
}

// A digit's value: 0 to 9, and A to F in upper case.
fn digit_of(b: u8) -> Option<u32>
    ensures { SomeIff result (digit_of b < 16) (digit_of b) }
{
    let value = value_of(b);
    if 16 <= value {
        return None;
    }
    Some(u32::from(value))
}

// A number with one digit more; what passes 32 bits counts as 4,294,967,296.
fn with_digit(n: u64, d: u32) -> u64
    ensures { result ≡ more n d }
{
    if 268435456 <= n {
        return 4294967296;
    }
    16 * n + u64::from(d)
}

// A field of digits.
fn number_of(s: &[u8]) -> Option<u64>
    ensures { result ≡ number_of s.now }
{
    if s.is_empty() {
        return None;
    }
    let mut n: u64 = 0;
    for b in s {
        n = with_digit(n, digit_of(*b)?);
    }
    Some(n)
}

// Where the first space stands.
fn space_in(s: &[u8]) -> Option<usize>
    ensures { result ≡ position (λ b. b == 32) s.now }
{
    s.iter().position(|b| *b == b' ')
}

// Where the first space stands, or the end.
fn end_of(s: &[u8]) -> usize
    ensures { (result ≤ length s.now) × (result ≡ span_of s.now) }
{
    space_in(s).unwrap_or(s.len())
}

// Whether the number of a request, behind F or J, has a 0 before it.
fn padded(letter: u8, s: &[u8]) -> bool
    ensures { result ≡ padded_b letter s.now }
{
    s.starts_with(b"0") & matches!(letter, b'F' | b'J')
}

// One field, or two.
fn fields(letter: u8, s: &[u8]) -> Option<Line>
    ensures { result ≡ fields_of letter s.now }
{
    if padded(letter, s) {
        return None;
    }
    let e = end_of(s);
    if e == s.len() {
        return Some(Line::One(letter, number_of(s)?));
    }
    let a = number_of(&s[..e])?;
    let b = number_of(&s[e + 1..])?;
    Some(Line::Two(letter, a, b))
}

// What a line says; of more than 20,000 characters: nothing.
pub fn read_line(s: &[u8]) -> Option<Line>
    ensures { result ≡ line_of s.now }
{
    if s.is_empty() {
        return None;
    }
    if 20000 < s.len() {
        return None;
    }
    let letter = s[0];
    if s.len() == 1 {
        return Some(Line::Bare(letter));
    }
    if s[1] != b' ' {
        return None;
    }
    match letter {
        b'G' | b'B' => Some(Line::Bytes(letter)),
        _ => fields(letter, &s[2..]),
    }
}

// One byte or more, of two digits each.
pub fn bytes_right(s: &[u8]) -> bool
    ensures { result ≡ bytes_b s.now }
{
    if s.is_empty() {
        return false;
    }
    if s.len() % 2 == 1 {
        return false;
    }
    for b in s {
        if digit_of(*b).is_none() {
            return false;
        }
    }
    true
}

// The byte that two digits make; a character that is none counts as 0.
fn byte_of(high: u8, low: u8) -> u8
    ensures { result ≡ byte_of high low }
{
    16 * (value_of(high) % 16) + value_of(low) % 16
}

// The bytes of a field go into a buffer, from a place on, as far as there is room.
pub fn put_bytes(s: &[u8], to: &mut [u8], from: usize)
    ensures { to.new ≡ bytes_put to.old from s.now }
{
    let mut at = from;
    let mut left = s;
    while let [high, low, rest @ ..] = left {
        if to.len() <= at {
            return;
        }
        to[at] = byte_of(*high, *low);
        at += 1;
        left = rest;
    }
}
