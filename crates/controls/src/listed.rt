// The registers as a line.
ghost use Rattle.std.specs.Prelude.{◌≡◌};
ghost use Rattle.controls.specs.Listed.{mode_number, first_fields, last_fields};

use console::output::Output;
use registers::{Mode, Registers, Video};

fn mode_number(m: Mode) -> u64
    ensures { result ≡ mode_number m }
{
    match m {
        Mode::Write => 0,
        Mode::Read => 1,
    }
}

// ead mask pitch dc d d2 d1 dm figs gd op zoom; figs is FIGS' first byte.
fn first(r: Registers) -> [u64; 12]
    ensures { result ≡ first_fields r }
{
    let f = r.drawing;
    [
        r.cursor.ead as u64,
        r.cursor.mask as u64,
        r.pitch as u64,
        f.dc as u64,
        f.d as u64,
        f.d2 as u64,
        f.d1 as u64,
        f.dm as u64,
        8 * f.kind as u64 + f.dir as u64,
        u64::from(f.gd),
        u64::from(u8::from(r.op)),
        r.video.zoom as u64,
    ]
}

// pram sync cchar
fn stored(out: &mut Output, ram: [u8; 16], v: Video) {
    out.pairs(&ram);
    out.pairs(&v.sync);
    out.pairs(&v.cchar);
}

// vsync display pen penset mode held
fn last(r: Registers) -> [u64; 6]
    ensures { result ≡ last_fields r }
{
    [
        u64::from(r.video.vsync),
        u64::from(r.video.display),
        r.pen.address as u64,
        u64::from(r.pen.set),
        mode_number(r.mode),
        r.buffer.count as u64,
    ]
}

// The fields of the answer to `D`.
pub fn registers(out: &mut Output, r: Registers) {
    out.fields(&first(r), 1);
    stored(out, r.ram, r.video);
    out.fields(&last(r), 1);
}
