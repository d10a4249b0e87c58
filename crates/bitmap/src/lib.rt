// The bytes of a portable bitmap (PBM, P4): there the most significant bit is leftmost, here a word's bit 0 is.
#![tactic(auto)]

ghost use Rattle.std.specs.Prelude.{◌≡◌, ◌+◌, ◌*◌, ◌/◌, ◌%◌, ◌<◌, get_or};
ghost use Rattle.bitmap.specs.Image.{reversed_of, half_of, byte_at, image_of};

// A byte with its bits in reverse.
fn reversed(b: u8) -> u8
    ensures { result ≡ reversed_of b }
{
    b.reverse_bits()
}

// The word at a place, 0 past the memory's end.
fn word_at(mem: &[u16], at: usize) -> u16
    ensures { result ≡ get_or mem.now at 0 }
{
    mem.get(at).copied().unwrap_or(0)
}

// A word's low byte for an even place, its high byte for an odd one.
#[tactic(auto, unfolding(crate::specs::Image::half_of))]
fn half(word: u16, place: usize) -> u8
    ensures { result ≡ half_of word place }
{
    if place % 2 == 0 {
        (word % 256) as u8
    } else {
        (word / 256) as u8
    }
}

// Byte b of line y of the image, for p words a line.
fn image_byte(mem: &[u16], p: u32, y: usize, b: usize) -> u8
    requires { y * p + b < 18446744073709551616 }
    ensures { result ≡ byte_at p y b mem.now }
{
    let word = word_at(mem, y * p as usize + b / 2);
    reversed(half(word, b))
}

// Fills the image, line after line, from the picture of p words a line at the memory's start.
pub fn fill_image(mem: &[u16], p: u32, image: &mut [u8])
    ensures { image.new ≡ image_of p mem.now image.old }
{
    if p == 0 {
        return;
    }
    let width = 2 * p as usize;
    for j in 0..image.len() {
        image[j] = image_byte(mem, p, j / width, j % width);
    }
}
