// The items of the output: what find_path answered before each of them.
use atom::{BACK_REFERENCE, CONS_BOX_MARKER};
use std::io;
use std::io::Write;

// A line with a word, and bytes in hexadecimal if there are any.
fn line<W: Write>(out: &mut W, word: &str, bytes: &[u8]) -> io::Result<()> {
    write!(out, "{word}")?;
    if !bytes.is_empty() {
        crate::space(out)?;
    }
    crate::hex(out, bytes)?;
    crate::line_end(out)
}

// The line of the atom or path at a place; the place after it.
fn atom<W: Write>(out: &mut W, word: &str, output: &[u8], position: usize) -> io::Result<usize> {
    let found = atom_decode::parse_atom(output, position);
    let Ok(blob) = found else {
        return Ok(output.len());
    };
    line(out, word, atom_decode::parse_atom_ptr(output, found))?;
    Ok(blob.end)
}

// The line of the item at a place: a reference with its path where find_path gave one, else a pair or an atom. The place after it.
fn item<W: Write>(out: &mut W, output: &[u8], position: usize) -> io::Result<usize> {
    match output.get(position) {
        None => Ok(position),
        Some(&CONS_BOX_MARKER) => {
            line(out, "pair", b"")?;
            Ok(position + 1)
        }
        Some(&BACK_REFERENCE) => atom(out, "reference", output, position + 1),
        Some(_) => atom(out, "atom", output, position),
    }
}

// A line for each item. Each takes a byte at least.
fn items<W: Write>(out: &mut W, output: &[u8]) -> io::Result<()> {
    let mut position = 0;
    for _ in 0..output.len() {
        position = item(out, output, position)?;
    }
    Ok(())
}

// How the output is printed.
#[derive(Clone, Copy, Debug, Default, PartialEq, Eq)]
pub enum Layout {
    #[default]
    Hexadecimal,
    Items,
}

// The first `count` bytes that the slice has.
pub fn output<W: Write>(out: &mut W, bytes: &[u8], count: u32, layout: Layout) -> io::Result<()> {
    let n = crate::least(count, bytes.len());
    match layout {
        Layout::Hexadecimal => {
            crate::hex(out, &bytes[..n])?;
            crate::line_end(out)
        }
        Layout::Items => items(out, &bytes[..n]),
    }
}
