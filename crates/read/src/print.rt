// What the program writes.
use read_answer::ReadAnswer;
use std::io;
use std::io::Write;
use text::{least, line_end};

// A line: number, root, pairs, atoms, bytes, ghosts.
pub fn answer<W: Write>(out: &mut W, a: ReadAnswer) -> io::Result<()> {
    write!(
        out,
        "{} {:08x} {} {} {} {}\n",
        a.number, a.root, a.pairs, a.atoms, a.bytes, a.ghosts
    )
}

// A line for each of the first `count` pairs that the slice has: two handles.
pub fn pairs<W: Write>(out: &mut W, words: &[u32], count: u32) -> io::Result<()> {
    for pair in words.chunks_exact(2).take(count as usize) {
        write!(out, "pair {:08x} {:08x}\n", pair[0], pair[1])?;
    }
    Ok(())
}

// A line for each of the first `count` listed atoms that the slice has: where its bytes begin and end.
pub fn atoms<W: Write>(out: &mut W, words: &[u32], count: u32) -> io::Result<()> {
    for atom in words.chunks_exact(2).take(count as usize) {
        write!(out, "atom {} {}\n", atom[0], atom[1])?;
    }
    Ok(())
}

// A line with the first `count` bytes that the slice has, in hexadecimal.
pub fn hex<W: Write>(out: &mut W, bytes: &[u8], count: u32) -> io::Result<()> {
    let n = least(count, bytes.len());
    text::hex(out, &bytes[..n])?;
    line_end(out)
}
