// Reads serialized trees: the files that its arguments name, or standard input.
#![tactic(auto)]

mod print;

use std::io;
use std::io::Write;
use text::program::{self, Program};
use text::questions;

// The answer, the pairs, the listed atoms and the atom bytes; and the question that got no. The parameters' types have the arrays'
// lengths, so that no zeros are counted.
fn report_with<W: Write, E: Write>(
    out: &mut W,
    err: &mut E,
    input: &[u8],
    work: &mut [u32; words::WORK],
    pairs: &mut [u32; read_answer::PAIRS],
    atoms: &mut [u32; read_answer::ATOMS],
    bytes: &mut [u8; read_answer::BYTES],
) -> io::Result<()> {
    let a = read_call::nikvoldra_read(input, work, pairs, atoms, bytes);
    print::answer(out, a)?;
    print::pairs(out, pairs, a.pairs)?;
    print::atoms(out, atoms, a.atoms)?;
    print::hex(out, bytes, a.bytes)?;
    out.flush()?;
    questions::question(err, a.number)
}

// The program: reads serialized trees.
#[derive(Clone, Copy, Debug)]
struct Trees;

impl Program for Trees {
    const USAGE: &'static [u8] = b"usage: read [FILE ..]    no file: standard input\n";

    fn report<W: Write, E: Write>(&self, out: &mut W, err: &mut E, input: &[u8]) -> io::Result<()> {
        let mut work = [0u32; words::WORK];
        let mut pairs = [0u32; read_answer::PAIRS];
        let mut atoms = [0u32; read_answer::ATOMS];
        let mut bytes = [0u8; read_answer::BYTES];
        report_with(
            out, err, input, &mut work, &mut pairs, &mut atoms, &mut bytes,
        )
    }
}

fn main(rt: HostRuntime) -> io::Result<()> {
    program::run(
        &mut Trees,
        &mut rt.stdout(),
        &mut rt.stderr(),
        rt.stdin(),
        &rt,
    )
}
