// What the programs read, and what they write: numbers and bytes in hexadecimal on standard output, words on standard error.
#![tactic(auto)]

pub mod input;
pub mod program;
pub mod questions;
pub mod session_text;

ghost use Rattle.std.specs.Prelude.{◌*◌, ◌<◌, ◌≤◌, [], ◌∷◌, length, OnOk};
ghost use Rattle.std.specs.Fmt.{decimal};
ghost use Rattle.std.specs.Io.KnownBytes.{Appends};

use std::io;
use std::io::Write;

// The lesser of the two.
pub fn least(count: u32, size: usize) -> usize
    ensures { result ≤ size }
{
    size.min(count as usize)
}

pub fn decimal<W: Write>(out: &mut W, n: u64) -> io::Result<()>
    ensures { OnOk result (Appends (W.contents out.old) (W.contents out.new) (decimal n)) }
{
    write!(out, "{n}")
}

pub fn space<W: Write>(out: &mut W) -> io::Result<()>
    ensures { OnOk result (Appends (W.contents out.old) (W.contents out.new) (32 ∷ [])) }
{
    out.write_all(b" ")
}

pub fn line_end<W: Write>(out: &mut W) -> io::Result<()>
    ensures { OnOk result (Appends (W.contents out.old) (W.contents out.new) (10 ∷ [])) }
{
    out.write_all(b"\n")
}

// The digit of a number below 16.
fn digit(n: u8) -> u8
    requires { n < 16 }
{
    if n < 10 { b'0' + n } else { b'a' + (n - 10) }
}

// The digits of the bytes, two for each, at the start of the text.
fn spell(bytes: &[u8], text: &mut [u8])
    requires { 2 * length bytes.now ≤ length text.old }
{
    for (i, x) in bytes.iter().enumerate() {
        text[2 * i] = digit(*x / 16);
        text[2 * i + 1] = digit(*x % 16);
    }
}

// The most bytes that are printed at once.
const CHUNK: usize = 2048;

fn hex_chunk<W: Write>(out: &mut W, bytes: &[u8]) -> io::Result<()>
    requires { length bytes.now ≤ 2048 }
{
    let mut text = [0u8; 2 * CHUNK];
    spell(bytes, &mut text);
    out.write_all(&text[..2 * bytes.len()])
}

// The bytes in hexadecimal.
pub fn hex<W: Write>(out: &mut W, bytes: &[u8]) -> io::Result<()> {
    for chunk in bytes.chunks(CHUNK) {
        hex_chunk(out, chunk)?;
    }
    Ok(())
}

// Words on standard error.
pub fn say<W: Write>(err: &mut W, text: &[u8]) -> io::Result<()>
    ensures { OnOk result (Appends (W.contents err.old) (W.contents err.new) text.now) }
{
    err.write_all(text)
}
