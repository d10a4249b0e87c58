// The fields that 02's requests added to the register set: `J` puts one, `F` shows one.
ghost use Rattle.std.specs.Prelude.{◌≡◌};
ghost use Rattle.controls.specs.Fields.{field_put, count_done, count_fields, wiring_done, wiring_number, wiring_fields};

use console::desk::{Done, Reply};
use dots::Wiring;
use registers::Registers;

// A field is put.
fn put(r: Registers) -> Done
    ensures { result ≡ field_put r }
{
    Done {
        regs: r,
        reply: Reply::One(b'J', 0),
    }
}

// `J 103 v`
pub fn count_done(r: Registers, v: u64) -> Done
    ensures { result ≡ count_done r v }
{
    put(Registers { remaining: v, ..r })
}

// The numbers of the answer to `F 103`; the request's has its decimal digits when it is written in hexadecimal.
pub fn count_fields(r: Registers) -> [u64; 2]
    ensures { result ≡ count_fields r }
{
    [0x103, r.remaining]
}

// `J 108 v`
pub fn wiring_done(r: Registers, w: Wiring) -> Done
    ensures { result ≡ wiring_done r w }
{
    put(wirings::wired(r, w))
}

fn wiring_number(w: Wiring) -> u64
    ensures { result ≡ wiring_number w }
{
    match w {
        Wiring::Folded => 0,
        Wiring::Open => 1,
    }
}

// The numbers of the answer to `F 108`.
pub fn wiring_fields(r: Registers) -> [u64; 2]
    ensures { result ≡ wiring_fields r }
{
    [0x108, wiring_number(r.board.wiring)]
}
