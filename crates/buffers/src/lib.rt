// What the programs do with their buffers: the part that is in use, words cleared and put, and a digest of them.
#![tactic(auto)]

ghost use Rattle.std.specs.Prelude.{◌≡◌, take};
ghost use Rattle.buffers.specs.Used.{Used, used_of};
ghost use Rattle.buffers.specs.Words.{cleared, stored, mixed, digest_of};

// How many elements of a buffer are in use: n, or all where it has fewer.
pub fn used<T>(n: usize, buf: &[T]) -> usize
    ensures { Used n buf.now result }
{
    n.min(buf.len())
}

// Those elements.
pub fn part<T>(n: usize, buf: &[T]) -> &[T]
    ensures { result.now ≡ take (used_of n buf.now) buf.now }
{
    &buf[..used(n, buf)]
}

// The words are zero.
pub fn clear(mem: &mut [u16])
    ensures { mem.new ≡ cleared mem.old }
{
    mem.fill(0);
}

// A word is put where the memory has its place.
pub fn store(mem: &mut [u16], at: usize, v: u16)
    ensures { mem.new ≡ stored mem.old at v }
{
    if at < mem.len() {
        mem[at] = v;
    }
}

// FNV-1a with a byte more.
fn mix(h: u32, b: u16) -> u32
    ensures { result ≡ mixed h b }
{
    (h ^ u32::from(b)).wrapping_mul(16777619)
}

// FNV-1a over every word, low byte first.
pub fn digest(mem: &[u16]) -> u32
    ensures { result ≡ digest_of mem.now }
{
    let mut h: u32 = 0x811C9DC5;
    for w in mem {
        h = mix(mix(h, w % 256), w / 256);
    }
    h
}
