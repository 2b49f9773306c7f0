// What the programs read: standard input, or the files that arguments name.
ghost use Rattle.std.specs.Prelude.{◌≤◌, IfOk, length};

use std::fs::File;
use std::io::{Read, Write};
use std::rt::Files;
use std::{io, str};

// The most bytes that are read of an input: one more than a call takes, so that it sees where there are more.
pub const LONGEST: usize = 65536;

// The most bytes of an argument.
pub const LONGEST_NAME: usize = 4096;

// What the system calls a name that is too long.
const ENAMETOOLONG: i32 = 36;

// The bytes from a reader, from the start of the slice on: how many there are, up to the slice's length.
pub fn read_full<R: Read>(from: &mut R, input: &mut [u8]) -> io::Result<usize>
    ensures { IfOk result (λ n. n ≤ length input.new) }
{
    let mut filled = 0;
    // No `for`: each turn goes on by as many bytes as a read gave.
    while filled < input.len() {
        let n = from.read(&mut input[filled..])?;
        if n == 0 {
            return Ok(filled);
        }
        filled += n;
    }
    Ok(filled)
}

// The file with this name. A name that is not UTF-8 is refused.
pub fn open<R: Files>(rt: &R, name: &[u8]) -> io::Result<R::File> {
    match str::from_utf8(name) {
        Ok(path) => File::open(rt, path),
        Err(_) => Err(io::Error::from(io::ErrorKind::InvalidFilename)),
    }
}

// What stands in front of the number that the system has for an error.
const NUMBERED: &[u8] = b" (os error ";

// The most bytes of an error's words.
const MOST_WORDS: usize = 256;

// An error's words, at the start of the slice: how many bytes they have.
fn spelled(text: &mut [u8], error: io::Error) -> io::Result<usize>
    ensures { IfOk result (λ n. n ≤ length text.old) }
{
    let most = text.len();
    let mut rest = text;
    write!(rest, "{error}")?;
    Ok(most.saturating_sub(rest.len()))
}

// The words without the number that the system has for the error.
fn words(text: &[u8]) -> &[u8] {
    match text
        .windows(NUMBERED.len())
        .position(|part| part == NUMBERED)
    {
        Some(end) => &text[..end],
        None => text,
    }
}

// A line on standard error: what failed, and why.
pub fn fail<W: Write>(err: &mut W, name: &[u8], error: io::Error) -> io::Result<()> {
    let mut text = [0u8; MOST_WORDS];
    let n = spelled(&mut text, error)?;
    err.write_all(name)?;
    err.write_all(b": ")?;
    err.write_all(words(&text[..n]))?;
    err.write_all(b"\n")
}

// The same of an argument with more bytes than a name may have.
pub fn too_long<W: Write>(err: &mut W) -> io::Result<()> {
    fail(err, b"argument", io::Error::from_raw_os_error(ENAMETOOLONG))
}
