// A read: RDAT's items.
ghost use Rattle.std.specs.Prelude.{◌≡◌};
ghost use Rattle.registers.specs.State.{state};
ghost use Rattle.figures.specs.Reading.{bytes_of, room_b, given, read_on, item_given, read_unit};

use registers::{Buffer, Registers, Transfer, Work};

// The bytes of an item.
fn bytes_of(t: Transfer) -> u8
    ensures { result ≡ bytes_of t }
{
    match t {
        Transfer::Word => 2,
        Transfer::Low | Transfer::High => 1,
    }
}

// Whether they fit.
#[tactic(auto, unfolding(crate::specs::Reading::room_b))]
pub fn room(t: Transfer, b: Buffer) -> bool
    ensures { result ≡ room_b t b }
{
    b.count as u16 + bytes_of(t) as u16 <= 16
}

// The buffer with them.
#[tactic(auto, unfolding(crate::specs::Reading::given))]
pub fn give(t: Transfer, w: u16, b: Buffer) -> Buffer
    ensures { result ≡ given t w b }
{
    match t {
        Transfer::Word => registers::push(registers::push(b, w % 256), w / 256),
        Transfer::Low => registers::push(b, w % 256),
        Transfer::High => registers::push(b, w / 256),
    }
}

// The next item, or the read's end.
#[tactic(auto, unfolding(crate::specs::Reading::read_on))]
pub fn read_on(transfer: Transfer, i: u16, dc: u16) -> Work
    ensures { result ≡ read_on transfer i dc }
{
    if i as u32 + 1 < dc as u32 {
        Work::Reading {
            item: i + 1,
            transfer,
        }
    } else {
        Work::Idle
    }
}

// The item w is given, and EAD moves a whole word.
#[tactic(auto, unfolding(crate::specs::Reading::item_given))]
fn item_given(r: Registers, i: u16, t: Transfer, w: u16) -> Registers
    ensures { result ≡ item_given i t w r }
{
    let cursor = dots::word_move(r.drawing.dir, r.pitch, r.cursor);
    let given = Registers {
        buffer: give(t, w, r.buffer),
        ..r
    };
    super::goes_on(given, cursor, read_on(t, i, r.drawing.dc))
}

// One item of a read, if its bytes fit.
#[tactic(auto, unfolding(crate::specs::Reading::read_unit))]
pub fn read_unit(r: Registers, i: u16, t: Transfer, mem: &mut [u16]) -> Registers
    ensures { state result mem.new ≡ read_unit i t (state r mem.old) }
{
    if room(t, r.buffer) {
        item_given(r, i, t, dots::met(mem, r.board.wiring, r.cursor.ead))
    } else {
        r
    }
}
