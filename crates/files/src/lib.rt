// Files, read as far as a buffer holds them, and bytes that are written. What fails is told on standard error, as the name of the file, a colon and the
// system's reason.
#![tactic(auto)]

ghost use Rattle.std.specs.Prelude.{IfOk, IfSome};
ghost use Rattle.io.specs.Counts.{IsPrefixLen};

use std::fs::File;
use std::io::{Read, Write};
use std::rt::Files;
use std::{io, str};

// Says what failed and why, without the number that the library puts behind the system's reason. Where there is no memory to cut it, it stays.
fn fail<R: Eprint + Alloc>(rt: &R, what: &str, why: &io::Error) {
    match format!(in rt.alloc(); "{why}") {
        Ok(text) => {
            let whole = text.as_str();
            let reason = match whole.split_once(" (os error ") {
                Some((reason, _)) => reason,
                None => whole,
            };
            let _ = eprintln!(rt; "{what}: {reason}");
        }
        Err(_) => {
            let _ = eprintln!(rt; "{what}: {why}");
        }
    }
}

// The name as text, or nothing, and then it has said that the name is none.
fn text_of<'a, R: Eprint>(rt: &R, path: &'a [u8]) -> Option<&'a str> {
    match str::from_utf8(path) {
        Ok(name) => Some(name),
        Err(_) => {
            let _ = eprintln!(rt; "{path:?}: a file's name must be UTF-8");
            None
        }
    }
}

// Reads until the buffer is full, the file ends or a read fails.
// Stays: a turn reads as much as the system gives, and `read_exact` would refuse a file that is shorter than the buffer.
fn fill<F: Read>(file: &mut F, buf: &mut [u8]) -> io::Result<usize>
    ensures { IfOk result (λ n. IsPrefixLen n buf.new) }
{
    let mut n = 0;
    while n < buf.len() {
        let more = file.read(&mut buf[n..])?;
        if more == 0 {
            return Ok(n);
        }
        n += more;
    }
    Ok(n)
}

fn read_file<R: Files>(rt: &R, name: &str, buf: &mut [u8]) -> io::Result<usize>
    ensures { IfOk result (λ n. IsPrefixLen n buf.new) }
{
    let mut file = File::open(rt, name)?;
    fill(&mut file, buf)
}

fn write_file<R: Files>(rt: &R, name: &str, bytes: &[u8]) -> io::Result<()> {
    let mut file = File::create(rt, name)?;
    file.write_all(bytes)
}

// Reads the file that the path names, as much of it as the buffer holds, and answers how many bytes, or says on standard error why it cannot.
pub fn take_file<R: Files + Eprint + Alloc>(rt: &R, path: &[u8], buf: &mut [u8]) -> Option<usize>
    ensures { IfSome result (λ count. IsPrefixLen count buf.new) }
{
    let name = text_of(rt, path)?;
    match read_file(rt, name, buf) {
        Ok(count) => Some(count),
        Err(why) => {
            fail(rt, name, &why);
            None
        }
    }
}

// Writes the bytes into the file that the path names, which is emptied or made, or says on standard error why it cannot.
pub fn give_file<R: Files + Eprint + Alloc>(rt: &R, path: &[u8], bytes: &[u8]) -> bool {
    let Some(name) = text_of(rt, path) else {
        return false;
    };
    match write_file(rt, name, bytes) {
        Ok(()) => true,
        Err(why) => {
            fail(rt, name, &why);
            false
        }
    }
}

// Writes the bytes to standard output, or says on standard error why it cannot.
pub fn print_bytes<R: Print + Eprint + Alloc>(rt: &R, bytes: &[u8]) {
    match io::writer(rt).write_all(bytes) {
        Ok(()) => {}
        Err(why) => fail(rt, "standard output", &why),
    }
}
