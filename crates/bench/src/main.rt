// The bench: a script on standard input drives the controller and the translator, one line of answer for each of its lines.
//
// A line of a new kind is an order more, and an arm with its function in the crate of its group.
#![tactic(auto)]

ghost use Rattle.std.specs.Prelude.{◌≡◌};
ghost use Rattle.bench.specs.Line.{characters_of, asked_for, behind_of};

use console::desk::{Desk, Done, Left};
use console::output::Output;
use console::reader::Reader;
use orders::{Memory, Order, Paper, Show};
use registers::Registers;

// The characters of a line of that length.
fn characters(line: &[u8], length: usize) -> &[u8]
    ensures { result.now ≡ characters_of line.now length }
{
    buffers::part(length, line)
}

// What a line asks for.
fn order(text: &[u8]) -> Order
    ensures { result ≡ asked_for text.now }
{
    orders::order_of(script::read_line(text))
}

// What stands behind its letter and the space.
fn behind(text: &[u8]) -> &[u8]
    ensures { result.now ≡ behind_of text.now }
{
    text.get(2..).unwrap_or(text)
}

// What stands on the bench, and the buffer of the memory. (With the papers' buffer here too `draw` has no generated proof: it lends one
// and reads the other.)
#[derive(Drop)]
struct Bench<'a> {
    regs: Registers,
    desk: Desk,
    mem: &'a mut [u16],
}

// How far the script is read, and the buffers of a piece of it and of a line.
#[derive(Drop)]
struct Script<'a> {
    reader: Reader,
    input: &'a mut [u8],
    line: &'a mut [u8],
}

impl<'a> Bench<'a> {
    // The registers of a line, and its answer written.
    fn done(&mut self, a: Done, out: &mut Output) {
        self.regs = a.regs;
        out.told(a.reply);
    }

    // A line to the memory.
    fn memory(&mut self, m: Memory, out: &mut Output) {
        let a = controls::memory_done(self.regs, self.desk.words, m, self.mem);
        self.regs = a.regs;
        self.desk.words = a.words;
        out.told(a.reply);
    }

    // A line to the papers.
    fn paper(&mut self, p: Paper, hex: &[u8], papers: &mut [u8], out: &mut Output) {
        let a = easel::paper_done(self.desk, p, hex, papers);
        self.desk = a.desk;
        out.told(a.reply);
    }

    // A line that draws the sheet.
    fn draw(&mut self, papers: &[u8], out: &mut Output) {
        let a = easel::drawing(self.regs, self.desk, self.mem, papers);
        self.done(a, out);
    }

    // What a line asks to see, of the words that the memory has.
    fn show(&self, s: Show, out: &mut Output) {
        controls::shown(self.regs, s, buffers::part(self.desk.words, self.mem), out);
    }

    // What a line asks for is done.
    fn answer(&mut self, o: Order, hex: &[u8], papers: &mut [u8], out: &mut Output) {
        match o {
            Order::Unknown => out.unknown(),
            Order::OfPort(p) => self.done(controls::port_done(self.regs, p), out),
            Order::OfMemory(m) => self.memory(m, out),
            Order::OfShow(s) => self.show(s, out),
            Order::OfPaper(p) => self.paper(p, hex, papers, out),
            Order::Translate(n) => easel::translation(self.desk, n, papers, out),
            Order::Draw => self.draw(papers, out),
            Order::Count(n) => self.done(controls::count_done(self.regs, n), out),
            Order::Wire(w) => self.done(controls::wiring_done(self.regs, w), out),
        }
    }
}

// The next line is answered, if one is whole.
fn turn(
    rt: &impl Input,
    script: &mut Script,
    bench: &mut Bench,
    papers: &mut [u8],
    out: &mut Output,
) {
    let r = script.reader.next_line(rt, script.input, script.line, out);
    script.reader = r;
    if r.whole {
        let text = characters(script.line, r.length);
        bench.answer(order(text), behind(text), papers, out);
        script.reader = r.past();
    }
}

// A proved loop has to end, and nothing says that a script does: the turns are counted, to a number that no run uses up.
fn turns(
    rt: &impl Input,
    script: &mut Script,
    bench: &mut Bench,
    papers: &mut [u8],
    out: &mut Output,
) {
    for _ in 0..u64::MAX {
        turn(rt, script, bench, papers, out);
        if script.reader.ended {
            break;
        }
    }
    out.flush();
}

// A line of 20,001 characters is held, so that a longer one than is lawful is seen; the papers are 4,096 bytes of a glyph table and
// 8,704 of a sheet.
fn main(rt: HostRuntime) {
    let mut input = [0u8; 65536];
    let mut line = [0u8; 20001];
    let mut mem = [0u16; 262144];
    let mut papers = [0u8; 12800];
    let mut room = [0u8; 65536];
    let Left { regs, desk } = console::desk::start();
    let mut script = Script {
        reader: Reader::start(),
        input: &mut input,
        line: &mut line,
    };
    let mut bench = Bench {
        regs,
        desk,
        mem: &mut mem,
    };
    turns(
        &rt,
        &mut script,
        &mut bench,
        &mut papers,
        &mut Output::new(&mut room),
    );
}
