// What a line of a record of the bus says (docs/REPLAY.md).
#![tactic(auto)]

ghost use Rattle.std.specs.Prelude.{◌≡◌, ◌≤◌, length};
ghost use Rattle.events.specs.Event.{
  blank_b,
  span_of,
  byte_of,
  units_of,
  field_of,
  bare_of,
  said_by,
  event_of,
  after_entry,
  asked_by,
};

// Nothing (an empty line, a comment); an entry for a port, the byte or for the command port 256 more; units to be done; a picture to
// be sent; or none of these.
#[derive(Clone, Copy)]
pub enum Event {
    Nothing,
    Entry(u16),
    Units(u32),
    Picture,
    Unknown,
}

// No units, which change nothing; and until the controller is idle.
const NO_UNITS: u64 = 4294967296;

const UNTIL_IDLE: u64 = 8589934592;

// A space, a tab or a carriage return.
#[tactic(auto, unfolding(crate::specs::Event::blank_b))]
fn blank(c: u8) -> bool
    ensures { result ≡ blank_b c }
{
    matches!(c, b' ' | b'\t' | b'\r')
}

// How long a text is without the blanks at its end.
fn span_of(s: &[u8]) -> usize
    ensures { (result ≤ length s.now) × (result ≡ span_of (length s.now) s.now) }
{
    for i in (0..s.len()).rev() {
        if !blank(s[i]) {
            return i + 1;
        }
    }
    0
}

// The byte of two digits and no more, with the port's mark.
fn byte_of(mark: u16, f: &[u8]) -> Event
    requires { mark ≤ 256 }
    ensures { result ≡ byte_of mark f.now }
{
    let [high, low] = f else {
        return Event::Unknown;
    };
    let Some(high) = char::from(*high).to_digit(16) else {
        return Event::Unknown;
    };
    let Some(low) = char::from(*low).to_digit(16) else {
        return Event::Unknown;
    };
    Event::Entry(mark + (16 * high + low) as u16)
}

// A number of units.
#[tactic(auto, unfolding(crate::specs::Event::units_of))]
fn units_of(n: Option<u32>) -> Event
    ensures { result ≡ units_of n }
{
    match n {
        Some(u) => Event::Units(u),
        None => Event::Unknown,
    }
}

// What follows a letter and a space.
#[tactic(auto, unfolding(crate::specs::Event::field_of))]
fn field_of(letter: u8, f: &[u8]) -> Event
    ensures { result ≡ field_of letter f.now }
{
    match letter {
        b'C' => byte_of(256, f),
        b'P' => byte_of(0, f),
        b'U' => units_of(decimals::number_of(f)),
        _ => Event::Unknown,
    }
}

// A letter alone.
#[tactic(auto, unfolding(crate::specs::Event::bare_of))]
fn bare_of(letter: u8) -> Event
    ensures { result ≡ bare_of letter }
{
    match letter {
        b'F' => Event::Picture,
        _ => Event::Unknown,
    }
}

// What a text with no blank at its end says.
#[tactic(auto, unfolding(crate::specs::Event::said_by))]
fn said_by(t: &[u8]) -> Event
    ensures { result ≡ said_by t.now }
{
    match t {
        [] => Event::Nothing,
        [letter] => bare_of(*letter),
        [letter, b' ', field @ ..] => field_of(*letter, field),
        _ => Event::Unknown,
    }
}

// What a line says.
#[tactic(auto, unfolding(crate::specs::Event::event_of))]
pub fn event_of(s: &[u8]) -> Event
    ensures { result ≡ event_of s.now }
{
    if s.is_empty() {
        return Event::Nothing;
    }
    if s[0] == b'#' {
        return Event::Nothing;
    }
    if 80 < s.len() {
        return Event::Unknown;
    }
    said_by(&s[..span_of(s)])
}

// The event that follows an entry.
#[tactic(auto, unfolding(crate::specs::Event::after_entry))]
fn after(by_units: bool) -> u64
    ensures { result ≡ after_entry by_units }
{
    if by_units { NO_UNITS } else { UNTIL_IDLE }
}

// What a line asks of the controller, in a record that has come to its first U or not: two events, as crate replaying has them.
#[tactic(auto, unfolding(crate::specs::Event::asked_by))]
pub fn asked_of(e: Event, by_units: bool) -> [u64; 2]
    ensures { result ≡ asked_by e by_units }
{
    match e {
        Event::Entry(b) => [u64::from(b), after(by_units)],
        Event::Units(n) => [NO_UNITS + u64::from(n), NO_UNITS],
        Event::Nothing | Event::Picture | Event::Unknown => [NO_UNITS, NO_UNITS],
    }
}
