// Reads a drawing sheet, for a plane of 40 words by 400 lines with no glyphs, and writes its entries, one to a line, or why it is refused
// (in words on standard error).
#![tactic(auto)]

ghost use Rattle.std.specs.Prelude.{◌≡◌, ◌%◌};
ghost use Rattle.listing.specs.Line.{digit_of, mark_of, line_of};

use blocks::Answer;

// A digit in upper case; the number modulo 16.
fn digit(n: u16) -> u8
    ensures { result ≡ digit_of (n % 16) }
{
    let d = (n % 16) as u8;
    if d < 10 { b'0' + d } else { b'A' - 10 + d }
}

// P for a parameter byte, C for a command.
fn mark(e: u16) -> u8
    ensures { result ≡ mark_of e }
{
    if e < 256 { b'P' } else { b'C' }
}

// An entry as a line.
fn entry_line(e: u16) -> [u8; 5]
    ensures { result ≡ line_of e }
{
    [mark(e), b' ', digit(e / 16), digit(e), b'\n']
}

// The first n entries, one to a line.
fn print_entries(entries: &[u16], n: usize) {
    for e in entries.iter().take(n) {
        io::write_all(1, &entry_line(*e));
    }
}

// The three numbers on standard output, and what they mean on standard error.
fn print_refusal(a: Answer) {
    io::write_all(1, b"refused ");
    io::print_decimal(1, u64::from(a.number));
    io::write_all(1, b" ");
    io::print_decimal(1, u64::from(a.first));
    io::write_all(1, b" ");
    io::print_decimal(1, u64::from(a.second));
    io::write_all(1, b"\n");
    sentences::say_refusal(2, a.number, a.first, a.second);
}

// One byte more than the largest sheet is read, so that a longer one is seen; the largest translation, of 800 circles, has
// 2 + 800·161 entries.
fn main() {
    let mut sheet = [0u8; 8193];
    let n = io::read_full(0, &mut sheet);
    let mut entries = [0u16; 128802];
    match sheets::translate(&sheet[..n], 40, 400, &[], &mut entries) {
        Ok(written) => print_entries(&entries, written as usize),
        Err(why) => print_refusal(why.answer()),
    }
}
