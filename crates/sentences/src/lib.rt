// What a number of refusal means, in the words of document 01 and of 02's M-100 and M-108: the sentence that `listing`, `picture` and
// `replay` say. And what a sheet costs (M-106), which `picture` says.
#![tactic(auto)]

// What was refused, and why.
fn say_meaning(fd: i32, number: u8) -> bool {
    match number {
        1 => io::write_all(fd, b"the register set is unsound"),
        2 => io::write_all(
            fd,
            b"the memory's length is wrong (16 to 262,144 words, with folded wiring a power of two)",
        ),
        3 => io::write_all(fd, b"in write mode the buffer holds 16"),
        4 => io::write_all(fd, b"a parameter byte in read mode"),
        11 => io::write_all(fd, b"P, H or P times H is out of range"),
        12 => io::write_all(fd, b"the glyph bytes are no multiple of 8, or over 2,048"),
        13 => io::write_all(fd, b"the sheet's length is wrong"),
        14 => io::write_all(fd, b"a block's check is wrong"),
        15 => io::write_all(
            fd,
            b"a block's heading, spare bytes or unused records are wrong",
        ),
        16 => io::write_all(fd, b"a record's form is wrong"),
        17 => io::write_all(fd, b"a record names a glyph that is not in the table"),
        18 => io::write_all(
            fd,
            b"a glyph's factor is not 1 to 16, or a circle's radius not 1 to 2,000",
        ),
        19 => io::write_all(fd, b"a dot lies outside the picture"),
        20 => io::write_all(fd, b"the output is shorter than the translation"),
        23 => io::write_all(fd, b"the picture does not fit the memory"),
        _ => io::write_all(fd, b"for another reason"),
    }
}

// Where: a block, a block and a record of it, or the entries needed, as the table of refusals returns them.
fn say_place(fd: i32, number: u8, first: u32, second: u32) {
    if (14 <= number) & (number <= 19) {
        io::write_all(fd, b" (block ");
        io::print_decimal(fd, first as u64);
        if 16 <= number {
            io::write_all(fd, b", record ");
            io::print_decimal(fd, second as u64);
        }
        io::write_all(fd, b")");
    }
    if number == 20 {
        io::write_all(fd, b" (it needs ");
        io::print_decimal(fd, first as u64);
        io::write_all(fd, b" entries)");
    }
}

// One line: "refused 14: a block's check is wrong (block 2)". Blocks and records are counted from 0.
pub fn say_refusal(fd: i32, number: u8, first: u32, second: u32) {
    io::write_all(fd, b"refused ");
    io::print_decimal(fd, number as u64);
    io::write_all(fd, b": ");
    say_meaning(fd, number);
    say_place(fd, number, first, second);
    io::write_all(fd, b"\n");
}

// So many things, one or more.
fn say_count(fd: i32, n: u64, thing: &[u8]) {
    io::print_decimal(fd, n);
    io::write_all(fd, thing);
    if n != 1 {
        io::write_all(fd, b"s");
    }
}

// A decimal number of four digits.
fn say_four(fd: i32, n: u64) {
    io::print_decimal(fd, n / 1000 % 10);
    io::print_decimal(fd, n / 100 % 10);
    io::print_decimal(fd, n / 10 % 10);
    io::print_decimal(fd, n % 10);
}

// Units of 800 ns in milliseconds, of which each is 1,250.
fn say_time(fd: i32, units: u64) {
    io::print_decimal(fd, units / 1250);
    io::write_all(fd, b".");
    say_four(fd, units % 1250 * 8);
    io::write_all(fd, b" ms");
}

// One line: "2 figures, 32 entries, 11 dots: 0.0344 ms at 800 ns a unit". Each entry and each dot is a unit.
pub fn say_cost(fd: i32, figures: u32, entries: u32, units: u64) {
    say_count(fd, figures as u64, b" figure");
    io::write_all(fd, b", ");
    io::print_decimal(fd, entries as u64);
    io::write_all(fd, b" entries, ");
    let sent = entries as u64;
    say_count(fd, if units < sent { 0 } else { units - sent }, b" dot");
    io::write_all(fd, b": ");
    say_time(fd, units);
    io::write_all(fd, b" at 800 ns a unit\n");
}
