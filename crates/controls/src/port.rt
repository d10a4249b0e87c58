// The lines to the ports.
ghost use Rattle.std.specs.Prelude.{◌≡◌};
ghost use Rattle.ports.specs.Answered.{answered};
ghost use Rattle.controls.specs.Port.{number_told, byte_told, status_told, port_done};

use console::desk::{Done, Reply};
use orders::Port;
use ports::{Granted, Refusal};
use registers::Registers;

// `C`, `P`, `L`: the number of the port's refusal.
fn numbered(letter: u8, r: Registers, a: Result<Granted, Refusal>) -> Done
    ensures { result ≡ number_told letter (answered r a) }
{
    let a = ports::told(r, a);
    Done {
        regs: a.regs,
        reply: Reply::One(letter, a.number as u64),
    }
}

// `R`: the number and the byte.
fn byte_read(r: Registers, a: Result<Granted, Refusal>) -> Done
    ensures { result ≡ byte_told (answered r a) }
{
    let a = ports::told(r, a);
    Done {
        regs: a.regs,
        reply: Reply::Two(b'R', a.number as u64, a.value as u64),
    }
}

// `S`: the status.
fn status_read(r: Registers, a: Result<Granted, Refusal>) -> Done
    ensures { result ≡ status_told (answered r a) }
{
    let a = ports::told(r, a);
    Done {
        regs: a.regs,
        reply: Reply::One(b'S', a.value as u64),
    }
}

// What a line to the ports does.
#[tactic(auto, unfolding(crate::specs::Port::port_done))]
pub fn port_done(r: Registers, p: Port) -> Done
    ensures { result ≡ port_done r p }
{
    match p {
        Port::Command(b) => numbered(b'C', r, ports::write_command(r, b)),
        Port::Parameter(b) => numbered(b'P', r, ports::write_parameter(r, b)),
        Port::Pen(a) => numbered(b'L', r, ports::post_pen(r, a)),
        Port::Read => byte_read(r, ports::read_byte(r)),
        Port::Status => status_read(r, ports::read_status(r)),
    }
}
