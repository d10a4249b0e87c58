// What a parameter byte does to a register: v is the byte, i its place among the command's parameters.
#![tactic(auto)]

ghost use Rattle.std.specs.Prelude.{◌≡◌, ◌<◌, ◌^◌};
ghost use Rattle.parameters.specs.Parameter.{low_byte, high_byte, high_six, curs_by, mask_by, figs_by, put_at, first_or};
ghost use Rattle.parameters.specs.Parameter.{sync_by, cchar_by, zoom_by, ram_by, pitch_by};

use dots::Cursor;
use registers::{Drawing, Registers, Video};

// The mask of one bit, from the table.
fn dot_mask(n: u8) -> u16
    requires { n < 16 }
    ensures { result ≡ 2 ^ n }
{
    dots::MASKS[n as usize]
}

// CURS.
#[tactic(auto, unfolding(crate::specs::Parameter::curs_by))]
pub fn curs_byte(c: Cursor, i: u8, v: u8) -> Cursor
    ensures { result ≡ curs_by i v c }
{
    match i {
        0 => Cursor {
            ead: c.ead / 256 * 256 + v as u32,
            ..c
        },
        1 => Cursor {
            ead: c.ead / 65536 * 65536 + v as u32 * 256 + c.ead % 256,
            ..c
        },
        2 => Cursor {
            ead: v as u32 % 4 * 65536 + c.ead % 65536,
            mask: dot_mask(v / 16),
        },
        _ => c,
    }
}

// The low byte of a number; its high byte; the high six bits of a number of 14.
fn low_byte(n: u16, v: u8) -> u16
    ensures { result ≡ low_byte n v }
{
    n / 256 * 256 + v as u16
}

fn high_byte(n: u16, v: u8) -> u16
    ensures { result ≡ high_byte n v }
{
    v as u16 * 256 + n % 256
}

fn high_six(n: u16, v: u8) -> u16
    ensures { result ≡ high_six n v }
{
    v as u16 % 64 * 256 + n % 256
}

// MASK.
#[tactic(auto, unfolding(crate::specs::Parameter::mask_by))]
pub fn mask_byte(c: Cursor, i: u8, v: u8) -> Cursor
    ensures { result ≡ mask_by i v c }
{
    match i {
        0 => Cursor {
            mask: low_byte(c.mask, v),
            ..c
        },
        1 => Cursor {
            mask: high_byte(c.mask, v),
            ..c
        },
        _ => c,
    }
}

// FIGS.
#[tactic(auto, unfolding(crate::specs::Parameter::figs_by))]
pub fn figs_byte(f: Drawing, i: u8, v: u8) -> Drawing
    ensures { result ≡ figs_by i v f }
{
    match i {
        0 => Drawing {
            kind: v / 8,
            dir: v % 8,
            ..f
        },
        1 => Drawing {
            dc: low_byte(f.dc, v),
            ..f
        },
        2 => Drawing {
            dc: high_six(f.dc, v),
            gd: v / 64 % 2 == 1,
            ..f
        },
        3 => Drawing {
            d: low_byte(f.d, v),
            ..f
        },
        4 => Drawing {
            d: high_six(f.d, v),
            ..f
        },
        5 => Drawing {
            d2: low_byte(f.d2, v),
            ..f
        },
        6 => Drawing {
            d2: high_six(f.d2, v),
            ..f
        },
        7 => Drawing {
            d1: low_byte(f.d1, v),
            ..f
        },
        8 => Drawing {
            d1: high_six(f.d1, v),
            ..f
        },
        9 => Drawing {
            dm: low_byte(f.dm, v),
            ..f
        },
        10 => Drawing {
            dm: high_six(f.dm, v),
            ..f
        },
        _ => f,
    }
}

// A byte takes its place among others, if it has one.
pub fn put_at(to: &mut [u8], i: u8, v: u8)
    ensures { to.new ≡ put_at i v to.old }
{
    let place = i as usize;
    if place < to.len() {
        to[place] = v;
    }
}

// A register of one byte takes the first, and no other.
pub fn first_or(i: u8, v: u8, held: u8) -> u8
    ensures { result ≡ first_or i v held }
{
    if i == 0 { v } else { held }
}

// The sync bytes, CCHAR and ZOOM.
#[tactic(auto, unfolding(crate::specs::Parameter::sync_by))]
pub fn sync_byte(mut w: Video, i: u8, v: u8) -> Video
    ensures { result ≡ sync_by i v w }
{
    put_at(&mut w.sync, i, v);
    w
}

#[tactic(auto, unfolding(crate::specs::Parameter::cchar_by))]
pub fn cchar_byte(mut w: Video, i: u8, v: u8) -> Video
    ensures { result ≡ cchar_by i v w }
{
    put_at(&mut w.cchar, i, v);
    w
}

#[tactic(auto, unfolding(crate::specs::Parameter::zoom_by))]
pub fn zoom_byte(w: Video, i: u8, v: u8) -> Video
    ensures { result ≡ zoom_by i v w }
{
    Video {
        zoom: first_or(i, v, w.zoom),
        ..w
    }
}

// PRAM.
#[tactic(auto, unfolding(crate::specs::Parameter::ram_by))]
pub fn ram_byte(mut r: Registers, i: u8, v: u8) -> Registers
    ensures { result ≡ ram_by i v r }
{
    put_at(&mut r.ram, i, v);
    r
}

// PITCH.
#[tactic(auto, unfolding(crate::specs::Parameter::pitch_by))]
pub fn pitch_byte(r: Registers, i: u8, v: u8) -> Registers
    ensures { result ≡ pitch_by i v r }
{
    Registers {
        pitch: first_or(i, v, r.pitch),
        ..r
    }
}
