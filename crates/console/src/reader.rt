// The script, read in large pieces and taken apart into lines.
ghost use Rattle.std.specs.Prelude.{◌≡◌};
ghost use Rattle.console.specs.Reader.{at_start, past_line, taking, taken};

use crate::output::Output;

// How far the piece is taken, how much of it there is, the characters of the line so far, whether that line is whole,
// whether the script has no more to read, and whether its last line is taken too.
#[derive(Clone, Copy)]
pub struct Reader {
    pub at: usize,
    pub filled: usize,
    pub length: usize,
    pub whole: bool,
    pub closed: bool,
    pub ended: bool,
}

impl Reader {
    pub fn start() -> Reader
        ensures { result ≡ at_start }
    {
        Reader {
            at: 0,
            filled: 0,
            length: 0,
            whole: false,
            closed: false,
            ended: false,
        }
    }

    // The next line begins.
    pub fn past(self) -> Reader
        ensures { result ≡ past_line self }
    {
        Reader {
            length: 0,
            whole: false,
            ended: self.closed,
            ..self
        }
    }

    // Characters of the piece are added to the line up to its end, or to the piece's; those past the line's room are dropped.
    // A script that is closed ends its last line, if that has a character.
    fn take_line(self, input: &[u8], line: &mut [u8]) -> Reader
        ensures { taking result line.new ≡ taken input.now self line.old }
    {
        let filled = buffers::used(self.filled, input);
        let mut length = self.length;
        for at in self.at..filled {
            let b = input[at];
            if b == b'\n' {
                return Reader {
                    at: at + 1,
                    filled,
                    length,
                    whole: true,
                    closed: false,
                    ended: false,
                };
            }
            if length < line.len() {
                line[length] = b;
                length += 1;
            }
        }
        Reader {
            at: self.at.max(filled),
            filled,
            length,
            whole: self.closed & (0 < length),
            closed: self.closed,
            ended: self.closed,
        }
    }

    // The next piece is read; with none the script is closed, and at its end where no line was begun.
    fn refill(self, rt: &impl Input, input: &mut [u8]) -> Reader {
        let filled = outside::input(rt, input);
        Reader {
            at: 0,
            filled,
            length: self.length,
            whole: false,
            closed: filled == 0,
            ended: filled == 0 && self.length == 0,
        }
    }

    // Where nobody takes the answers the script is not read on: its end.
    fn unheard(self) -> Reader {
        Reader {
            at: 0,
            filled: 0,
            length: self.length,
            whole: false,
            closed: true,
            ended: true,
        }
    }

    // The next line, if one is whole; else more of the script is read, with all answers written out before.
    pub fn next_line(
        self,
        rt: &impl Input,
        input: &mut [u8],
        line: &mut [u8],
        out: &mut Output,
    ) -> Reader {
        let r = self.take_line(input, line);
        if r.whole {
            return r;
        }
        if !out.flush() {
            return r.unheard();
        }
        r.refill(rt, input)
    }
}
