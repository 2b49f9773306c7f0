// The questions of both calls, in words.
use crate::say;
use std::io;
use std::io::Write;

// The line of the text with this number, counted from 1, on standard error; nothing where there is none.
fn say_line<W: Write>(err: &mut W, text: &[u8], number: usize) -> io::Result<()> {
    let mut lines = text.split_inclusive(|byte| *byte == b'\n');
    match number.checked_sub(1).and_then(|i| lines.nth(i)) {
        Some(line) => say(err, line),
        None => Ok(()),
    }
}

// The question that got no, in words, on standard error; nothing for 0, which is none. It is a number as in the calls' answers, which C reads.
pub fn question<W: Write>(err: &mut W, number: u32) -> io::Result<()> {
    say_line(
        err,
        b"question 1 got no: Are the slices long enough?
question 2 got no: Is the input at most 65,535 bytes?
question 3 got no: Does the file begin with the mark and version 1?
question 4 got no: Does the field end inside the file?
question 5 got no: At most 1,024 atoms, 1,024 pairs, 32,768 atom bytes so far, 1,024 steps?
question 6 got no: Is this atom one that fits_in_small_atom turns down?
question 7 got no: Does the handle name a listed atom, a small atom, or a pair listed earlier \
(for the sentinel and steps: any listed pair; the sentinel may be ffffffff)?
question 8 got no: Is the step code known?
question 9 got no: At an add, is the session unfinished?
question 10 got no: Are there fewer than 16 adds on the present history?
question 11 got no: Is the restore number below the count of adds on the present history?
question 12 got no: Before a pair's ff, are fewer than 4,096 pairs open?
question 13 got no: Does the next item fit the output, of which at most 65,535 bytes are used?
question 14 got no: Are bytes whole, prefixes at most six bytes, sizes below 2^34, nothing left over?
question 15 got no: Is each prefix shortest?
question 16 got no: Does every path stay out of atoms?
question 17 got no: At a 05, is a quote open?
",
        number as usize,
    )
}
