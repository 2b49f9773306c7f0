// What the programs that read inputs share: the inputs are the files that the arguments name, or standard input.
ghost use Rattle.std.specs.Prelude.{◌≤◌, ℕ, List, length, ⊤};

use crate::input;
use std::env::FillError;
use std::io;
use std::io::{Read, Write};
use std::rt::{Env, Files};

// A program over inputs.
pub trait Program {
    // The inputs that the program takes.
    ghost takes: { List ℕ → Type 0 } = { λ _. ⊤ };

    // How the program is called.
    const USAGE: &'static [u8];

    // Whether the argument asks for something, which holds for the inputs after it. Others name files.
    fn asks(&mut self, _argument: &[u8]) -> bool {
        false
    }

    // What the program prints of an input.
    fn report<W: Write, E: Write>(&self, out: &mut W, err: &mut E, input: &[u8]) -> io::Result<()>
        requires { takes input.now };
}

// A read of no bytes first, which fails where nothing can be read, as from a directory.
fn read_from<P: Program, W: Write, E: Write, R: Read + Drop>(
    program: &P,
    out: &mut W,
    err: &mut E,
    from: R,
    name: &[u8],
) -> io::Result<()>
    requires { (input : List ℕ) → length input ≤ 65536 → P.takes input }
{
    let mut from = from;
    match from.read(&mut []) {
        Ok(_) => {
            let mut bytes = [0u8; input::LONGEST];
            let n = input::read_full(&mut from, &mut bytes)?;
            program.report(out, err, &bytes[..n])
        }
        Err(error) => input::fail(err, name, error),
    }
}

// The file that an argument names.
fn read_named<P: Program, W: Write, E: Write, R: Files>(
    program: &P,
    out: &mut W,
    err: &mut E,
    rt: &R,
    name: &[u8],
) -> io::Result<()>
    requires { (input : List ℕ) → length input ≤ 65536 → P.takes input }
{
    match input::open(rt, name) {
        Ok(file) => read_from(program, out, err, file, name),
        Err(error) => {
            input::fail(err, name, error)?;
            crate::say(err, P::USAGE)
        }
    }
}

// The program over its arguments, one after the other; over standard input where there are none.
pub fn run<P: Program, W: Write, E: Write, I: Read + Drop, R: Env + Files>(
    program: &mut P,
    out: &mut W,
    err: &mut E,
    stdin: I,
    rt: &R,
) -> io::Result<()>
    requires { (input : List ℕ) → length input ≤ 65536 → P.takes input }
{
    let mut name = [0u8; input::LONGEST_NAME];
    for i in 1..usize::MAX {
        match rt.arg(i, &mut name) {
            Ok(n) => {
                if !program.asks(&name[..n]) {
                    read_named(program, out, err, rt, &name[..n])?;
                }
            }
            Err(FillError::TooLong) => input::too_long(err)?,
            Err(FillError::NotPresent) if i == 1 => {
                return read_from(program, out, err, stdin, b"standard input");
            }
            Err(FillError::NotPresent) => return Ok(()),
        }
    }
    Ok(())
}
