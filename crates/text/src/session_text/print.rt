// What the program writes.
use crate::{line_end, questions};
use std::io;
use std::io::Write;

// What is printed of a finished step.
#[derive(Clone, Copy, Debug, Default, PartialEq, Eq)]
pub enum Columns {
    // Its number, the size, and 1 if finished.
    #[default]
    Sizes,
    // The references and the prefix bytes too.
    Counts,
}

// A line for each of the first `count` steps whose three words the slice has, counted from 1.
pub fn steps<W: Write>(out: &mut W, words: &[u32], count: u32, columns: Columns) -> io::Result<()> {
    for (i, step) in words.chunks_exact(3).take(count as usize).enumerate() {
        write!(out, "{} {} {}", i + 1, step[0] / 2, step[0] % 2)?;
        if columns == Columns::Counts {
            write!(out, " {} {}", step[1], step[2])?;
        }
        line_end(out)?;
    }
    Ok(())
}

// The number of the question that got no, as the call's answer has it for C, and its words on standard error; nothing for 0, which is none.
pub fn refusal<W: Write, E: Write>(out: &mut W, err: &mut E, number: u32) -> io::Result<()> {
    if number == 0 {
        return Ok(());
    }
    write!(out, "refused {number}\n")?;
    out.flush()?;
    questions::question(err, number)
}
