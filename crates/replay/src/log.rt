// What is counted, and what is said on standard error. The numbers wrap at 64 bits, which no run reaches.
use events::Event;

// The line that is read; the bytes that the chip took and those that a port refused; the units, the pictures, the lines that are no event;
// whether a U has come, whether the output takes no more, and whether the last line could not be spoken of.
#[derive(Clone, Copy, Default)]
pub struct Tally {
    pub line: u64,
    pub bytes: u64,
    pub refused: u64,
    pub units: u64,
    pub pictures: u64,
    pub unknown: u64,
    pub by_units: bool,
    pub broken: bool,
    pub unsaid: bool,
}

fn say(text: &[u8]) -> bool {
    io::write_all(2, text)
}

fn say_number(text: &[u8], n: u64) {
    say(text);
    io::print_decimal(2, n);
}

impl Tally {
    // The next line begins.
    pub fn begin_line(&mut self) {
        self.line = self.line.wrapping_add(1);
    }

    // Which line it is about, and whether that could be said.
    fn say_line(&self) -> bool {
        say(b"replay: line ") & io::print_decimal(2, self.line) & say(b": ")
    }

    // An entry was taken, and units were done after it; or its port refused it.
    fn entry(&mut self, number: u8, units: u64) {
        if number != 0 {
            self.unsaid = !self.say_line();
            sentences::say_refusal(2, number, 0, 0);
            self.refused = self.refused.wrapping_add(1);
            return;
        }
        self.bytes = self.bytes.wrapping_add(1);
        self.units = self.units.wrapping_add(units);
    }

    // Units were done; from here on they are done where the record says so.
    fn units(&mut self, units: u64) {
        self.units = self.units.wrapping_add(units);
        self.by_units = true;
    }

    // A picture was written, or could not be.
    pub fn picture(&mut self, written: bool) {
        if written {
            self.pictures = self.pictures.wrapping_add(1);
            return;
        }
        self.say_line();
        say(b"the picture cannot be written, so the film ends here\n");
        self.broken = true;
    }

    // A line was no event.
    fn unknown(&mut self) {
        self.unsaid = !self.say_line();
        say(
            b"no event (C or P with a byte in two hexadecimal digits, U with a decimal number, F, # with a comment)\n",
        );
        self.unknown = self.unknown.wrapping_add(1);
    }

    // What could not be said is let be; where nobody reads what is said the record is not read on.
    pub fn unheard(&mut self, gone: bool) {
        self.unsaid = false;
        self.broken |= gone;
    }

    // What the controller answered to a line that asks for no picture.
    pub fn answered(&mut self, event: Event, number: u8, done: u64) {
        match event {
            Event::Entry(_) => self.entry(number, done),
            Event::Units(_) => self.units(done),
            Event::Unknown => self.unknown(),
            Event::Nothing | Event::Picture => {}
        }
    }

    // What was counted.
    pub fn ended(&self) {
        say_number(b"replay: bytes taken ", self.bytes);
        say_number(b", refused ", self.refused);
        say_number(b"; units ", self.units);
        say_number(b"; pictures ", self.pictures);
        say_number(b"; lines without an event ", self.unknown);
        say(b"\n");
    }
}

// The plane or the memory is refused.
pub fn refused_plane(number: u8) {
    say(b"replay: ");
    sentences::say_refusal(2, number, 0, 0);
}

pub fn usage() {
    say(
        b"replay: there are three arguments, P H WORDS, each a decimal number of 32 bits, and after them may stand open or folded\n",
    );
}
