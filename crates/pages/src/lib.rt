// A picture written to standard output as a portable bitmap (PBM, P4).
#![tactic(auto)]

// The bytes of a picture of P words by H lines, two for each word; 0 where P or H is out of 01's range.
fn size_of(p: u32, h: u32) -> usize {
    if 255 < p {
        return 0;
    }
    if 4096 < h {
        return 0;
    }
    2 * p as usize * h as usize
}

// The size in dots, as the format has it.
fn write_header(p: u32, h: u32) -> bool {
    io::write_all(1, b"P4\n")
        & io::print_decimal(1, 16 * p as u64)
        & io::write_all(1, b" ")
        & io::print_decimal(1, h as u64)
        & io::write_all(1, b"\n")
}

fn make(mem: &[u16], p: u32, size: usize, room: &mut [u8]) {
    let n = buffers::used(size, room);
    bitmap::fill_image(mem, p, &mut room[..n]);
}

fn put(size: usize, room: &[u8]) -> bool {
    io::write_all(1, buffers::part(size, room))
}

// The picture at the memory's start, made in the room that is lent and written in one piece: whether all of it was taken. The room has
// 524,288 bytes, which the largest picture needs.
pub fn write_page(mem: &[u16], p: u32, h: u32, room: &mut [u8]) -> bool {
    let size = size_of(p, h);
    make(mem, p, size, room);
    write_header(p, h) & put(size, room)
}
