// What comes from outside of a program: its arguments, its standard input, a file. What cannot be read is as what is not there: no bytes.
#![tactic(auto)]

ghost use Rattle.std.specs.Prelude.{◌≤◌, length, take};
ghost use Rattle.std.specs.Io.KnownBytes.{Consumes};

use std::env::FillError;
use std::fs;
use std::io::Read;
use std::rt::{Env, Files};

// Whether there is an argument i. Argument 0 is the program's name.
pub fn is_given(rt: &impl Env, i: usize) -> bool {
    let mut text = [0u8; 16];
    !matches!(rt.arg(i, &mut text), Err(FillError::NotPresent))
}

// Argument i at the start of a buffer, and its length: 0 where it is not given, or longer than the buffer.
pub fn arg(rt: &impl Env, i: usize, buf: &mut [u8]) -> usize
    ensures { result ≤ length buf.new }
{
    match rt.arg(i, buf) {
        Ok(n) => n,
        Err(_) => 0,
    }
}

// One read: the next bytes at the start of a buffer, and how many; 0 at the end, and where the read fails.
fn part<R: Read>(from: &mut R, buf: &mut [u8]) -> usize
    ensures fits { result ≤ length buf.new }
    ensures next { Consumes (R.remaining from.old) (R.remaining from.new) (take result buf.new) }
{
    match from.read(buf) {
        Ok(n) => n,
        Err(_) => 0,
    }
}

// What standard input has ready, waited for where that is nothing yet: how many bytes at the start of a buffer; 0 at the input's end, and
// where the read fails.
pub fn input(rt: &impl Input, buf: &mut [u8]) -> usize
    ensures { result ≤ length buf.new }
{
    part(&mut rt.reader(), buf)
}

// The next bytes at the start of a buffer, and how many: read until it is full, or a read gives nothing.
fn fill<R: Read>(from: &mut R, buf: &mut [u8]) -> usize
    ensures fits { result ≤ length buf.new }
    ensures next { Consumes (R.remaining from.old) (R.remaining from.new) (take result buf.new) }
{
    let mut done: usize = 0;
    while done < buf.len() {
        let n = part(from, &mut buf[done..]);
        if n == 0 {
            return done;
        }
        done += n;
    }
    done
}

// The file of that name at the start of a buffer: how many of its bytes, all where they fit; 0 where it cannot be opened. A name that is no
// UTF-8 names no file here.
pub fn file(rt: &impl Files, name: &[u8], buf: &mut [u8]) -> usize
    ensures { result ≤ length buf.new }
{
    let Ok(path) = str::from_utf8(name) else {
        return 0;
    };
    match fs::open(rt, path) {
        Ok(mut from) => fill(&mut from, buf),
        Err(_) => 0,
    }
}
