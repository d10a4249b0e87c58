// The answers, held in a room until it is full or the script is to be waited for.
ghost use Rattle.std.specs.Prelude.{◌≡◌, length};
ghost use Rattle.console.specs.Upper.{upper_of};
ghost use Rattle.console.specs.Output.{nothing_held, held_first, with_character};

use crate::desk::Reply;
use std::marker::Model;

// The characters that are not yet written out stand at the start of the room. A clause sees them, and how large the room is.
#[derive(Drop)]
pub struct Output<'a> {
    room: &'a mut [u8],
    held: usize,
}

impl<'a> Model for Output<'a> {
    ghost use Rattle.std.specs.Prelude.{◌≤◌, length, take};
    ghost use Rattle.console.specs.Output.{Held};

    ghost Value = { Held };

    ghost view = { λ o. record { size = length o.room.now; text = take o.held o.room.now } };

    ghost invariant = { λ o. o.held ≤ length o.room.now };
}

// The digits A to F in upper case.
#[tactic(auto, unfolding(crate::specs::Upper::upper_of))]
fn upper(c: u8) -> u8
    ensures { result ≡ upper_of c }
{
    if 97 <= c { c - 32 } else { c }
}

impl<'a> Output<'a> {
    pub fn new(room: &'a mut [u8]) -> Output<'a>
        ensures { result ≡ nothing_held (length room.old) }
    {
        Output { room, held: 0 }
    }

    // A room that holds that many characters already; more than its length act as its length.
    pub fn holding(room: &'a mut [u8], held: usize) -> Output<'a>
        ensures { result ≡ held_first held room.old }
    {
        let held = held.min(room.len());
        Output { room, held }
    }

    // How many characters are held.
    pub fn held(&self) -> usize
        ensures { result ≡ length self.now.text }
    {
        let count = self.held;
        count
    }

    // What is held is written out: whether all of it was taken.
    pub fn flush(&mut self) -> bool
        ensures { self.new ≡ nothing_held self.old.size }
    {
        let held = self.held;
        let taken = io::write_all(1, &self.room[..held]);
        self.held = 0;
        taken
    }

    // One character more; a full room is written out first.
    pub fn character(&mut self, c: u8)
        ensures holds { self.new ≡ with_character self.old c }
        ensures size { self.new.size ≡ self.old.size }
    {
        if self.held == self.room.len() {
            self.flush();
        }
        if self.held < self.room.len() {
            self.room[self.held] = c;
            self.held += 1;
        }
    }

    // A number in hexadecimal, of that many digits at the least.
    fn number(&mut self, value: u64, width: usize)
        ensures { self.new.size ≡ self.old.size }
    {
        let mut text = [0u8; 16];
        let count = io::hex(value, width, &mut text);
        for &digit in &text[..count] {
            self.character(upper(digit));
        }
    }

    // A space and a number of that many digits at the least.
    pub fn padded(&mut self, value: u64, width: usize)
        ensures { self.new.size ≡ self.old.size }
    {
        self.character(b' ');
        self.number(value, width);
    }

    // A space and a number of that many digits at the least, for each value.
    pub fn fields<T: Copy + Into<u64>>(&mut self, values: &[T], width: usize)
        ensures { self.new.size ≡ self.old.size }
    {
        for &v in values {
            self.padded(v.into(), width);
        }
    }

    // A space and bytes of two digits each.
    pub fn pairs(&mut self, bytes: &[u8])
        ensures { self.new.size ≡ self.old.size }
    {
        self.character(b' ');
        for &b in bytes {
            self.number(u64::from(b), 2);
        }
    }

    // A letter and numbers.
    pub fn begun(&mut self, letter: u8, values: &[u64])
        ensures { self.new.size ≡ self.old.size }
    {
        self.character(letter);
        self.fields(values, 1);
    }

    // A whole line of a letter and numbers.
    pub fn line(&mut self, letter: u8, values: &[u64])
        ensures { self.new.size ≡ self.old.size }
    {
        self.begun(letter, values);
        self.character(b'\n');
    }

    // The answer to a line that is not of the language.
    pub fn unknown(&mut self)
        ensures { self.new.size ≡ self.old.size }
    {
        self.line(b'?', &[]);
    }

    // An answer.
    pub fn told(&mut self, reply: Reply)
        ensures { self.new.size ≡ self.old.size }
    {
        match reply {
            Reply::Unknown => self.unknown(),
            Reply::One(letter, a) => self.line(letter, &[a]),
            Reply::Two(letter, a, b) => self.line(letter, &[a, b]),
            Reply::Three(letter, a, b, c) => self.line(letter, &[a, b, c]),
            Reply::Four(letter, a, b, c, d) => self.line(letter, &[a, b, c, d]),
        }
    }
}
