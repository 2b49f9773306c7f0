// Answers a file of leaf cases: the leaf functions on each record of standard input, one line of standard output for each.
// A record is an op, the length of a payload in two bytes, the higher first, and the payload.
#![tactic(auto)]

mod answer;
mod bits;
mod print;
mod refusal;

ghost use Rattle.std.specs.Prelude.{◌<◌, ◌≤◌, length, IfOk};

use refusal::Refusal;
use std::io;
use std::io::Write;

// The answer to the record at the start of the input, and how many bytes the record takes.
fn record<W: Write>(out: &mut W, input: &[u8]) -> Result<usize, Refusal>
    ensures { IfOk result (λ n. (0 < n) × (n ≤ length input.now)) }
{
    let [op, high, low, ..] = *input else {
        return Err(Refusal::BadRecord);
    };
    let end = 3 + usize::from(u16::from_be_bytes([high, low]));
    let Some(payload) = input.get(3..end) else {
        return Err(Refusal::BadRecord);
    };
    answer::answer(out, op, payload)?;
    text::line_end(out)?;
    Ok(end)
}

// The answers to all records, up to the first bad one.
fn records<W: Write>(out: &mut W, input: &[u8]) -> io::Result<()> {
    let mut rest = input;
    // No `for`: a record says itself how long it is.
    while !rest.is_empty() {
        match record(out, rest) {
            Ok(n) => rest = &rest[n..],
            Err(Refusal::BadRecord) => return print::bad_record(out),
            Err(Refusal::Output(error)) => return Err(error),
        }
    }
    Ok(())
}

fn main(rt: HostRuntime) -> io::Result<()> {
    let mut input = [0u8; text::input::LONGEST];
    let n = text::input::read_full(&mut rt.stdin(), &mut input)?;
    let mut out = rt.stdout();
    records(&mut out, &input[..n])?;
    out.flush()
}
