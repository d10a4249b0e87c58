// The buffer: an entry more, the oldest, and the rest without it.
#![tactic(auto, unfolding(crate::specs::Buffer::pushed, crate::specs::Buffer::oldest, crate::specs::Buffer::popped))]

ghost use Rattle.std.specs.Prelude.{◌≡◌};
ghost use Rattle.registers.specs.Buffer.{pushed, oldest, popped};

use super::{Buffer, PLACES};

// The buffer with an entry more; one of sixteen takes none.
pub fn push(mut b: Buffer, e: u16) -> Buffer
    ensures { result ≡ pushed b e }
{
    if b.count < PLACES {
        b.entries[b.count as usize] = e;
        b.count += 1;
    }
    b
}

// The oldest entry.
pub fn oldest_of(b: Buffer) -> u16
    ensures { result ≡ oldest b }
{
    b.entries[0]
}

// The buffer without its oldest entry.
pub fn pop(b: Buffer) -> Buffer
    ensures { result ≡ popped b }
{
    if b.count <= 1 {
        return Buffer::default();
    }
    let mut entries = [0; 16];
    entries[..15].copy_from_slice(&b.entries[1..]);
    Buffer {
        entries,
        count: b.count - 1,
    }
}
