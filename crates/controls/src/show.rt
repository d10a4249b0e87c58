// The lines that show the registers and the memory.
use console::output::Output;
use orders::Show;
use registers::Registers;

// `D`
fn registers_shown(r: Registers, out: &mut Output) {
    out.character(b'D');
    crate::listed::registers(out, r);
    out.character(b'\n');
}

// `V a n`
fn words_shown(a: u64, n: u64, mem: &[u16], out: &mut Output) {
    let from = a as usize;
    let count = n as usize;
    if mem.len() <= from || mem.len() - from < count {
        return out.unknown();
    }
    out.character(b'V');
    out.fields(&mem[from..from + count], 1);
    out.character(b'\n');
}

// `H`
fn digest_shown(mem: &[u16], out: &mut Output) {
    out.character(b'H');
    out.padded(u64::from(buffers::digest(mem)), 8);
    out.character(b'\n');
}

// What a line that shows something writes.
pub fn shown(r: Registers, s: Show, mem: &[u16], out: &mut Output) {
    match s {
        Show::Registers => registers_shown(r, out),
        Show::Words(a, n) => words_shown(a, n, mem, out),
        Show::Digest => digest_shown(mem, out),
        Show::Counted => out.line(b'F', &crate::fields::count_fields(r)),
        Show::Wired => out.line(b'F', &crate::fields::wiring_fields(r)),
    }
}
