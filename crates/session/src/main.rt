// Runs session files: those that its arguments name, or standard input. After the argument --items the output is printed item by item, after --counts each
// step's references and prefix bytes too; after --documented found paths are measured as the documentation has it.
#![tactic(auto)]

use session_answer::SessionAnswer;
use session_state::Checkpoint;
use std::io;
use std::io::Write;
use text::program::{self, Program};
use text::session_text::items::{self, Layout};
use text::session_text::print::{self, Columns};

// Three words for each of the steps, of which a session has at most 1,024.
const WORDS: usize = 3072;

// The most bytes of an output.
const OUTPUT: usize = 65535;

// A checkpoint record before the call.
const BLANK: Checkpoint = Checkpoint {
    opens: 0,
    depth: 0,
    size: 0,
    references: 0,
    prefix_bytes: 0,
    sentinel: 0,
};

// How found paths are measured.
#[derive(Clone, Copy, Debug, Default, PartialEq, Eq)]
pub enum Measure {
    #[default]
    Program,
    Documentation,
}

// What the arguments ask for.
#[derive(Clone, Copy, Debug, Default, PartialEq, Eq)]
pub struct Options {
    pub layout: Layout,
    pub columns: Columns,
    pub measure: Measure,
}

// The session call by this measure, with sixteen checkpoint records of its own.
fn run(
    measure: Measure,
    file: &[u8],
    work: &mut [u32],
    words: &mut [u32],
    output: &mut [u8],
) -> SessionAnswer {
    let mut checkpoints = [BLANK; 16];
    match measure {
        Measure::Program => {
            session_call::nikvoldra_session(file, work, words, &mut checkpoints, output)
        }
        Measure::Documentation => {
            session_call::nikvoldra_session_documented(file, work, words, &mut checkpoints, output)
        }
    }
}

// A line for each finished step, the output in hexadecimal or item by item, and the number of the question that got no. The parameters'
// types have the arrays' lengths, so that no zeros are counted.
fn report_with<W: Write, E: Write>(
    out: &mut W,
    err: &mut E,
    file: &[u8],
    options: Options,
    work: &mut [u32; words::WORK],
    words: &mut [u32; WORDS],
    output: &mut [u8; OUTPUT],
) -> io::Result<()> {
    let a = run(options.measure, file, work, words, output);
    print::steps(out, words, a.steps, options.columns)?;
    items::output(out, output, a.size, options.layout)?;
    print::refusal(out, err, a.number)?;
    out.flush()
}

impl Program for Options {
    const USAGE: &'static [u8] =
        b"usage: session [--items] [--counts] [--documented] [FILE ..]    no file: standard input\n";

    fn asks(&mut self, argument: &[u8]) -> bool {
        match argument {
            b"--items" => self.layout = Layout::Items,
            b"--counts" => self.columns = Columns::Counts,
            b"--documented" => self.measure = Measure::Documentation,
            _ => return false,
        }
        true
    }

    fn report<W: Write, E: Write>(&self, out: &mut W, err: &mut E, input: &[u8]) -> io::Result<()> {
        let mut work = [0u32; words::WORK];
        let mut words = [0u32; WORDS];
        let mut output = [0u8; OUTPUT];
        report_with(out, err, input, *self, &mut work, &mut words, &mut output)
    }
}

fn main(rt: HostRuntime) -> io::Result<()> {
    program::run(
        &mut Options::default(),
        &mut rt.stdout(),
        &mut rt.stderr(),
        rt.stdin(),
        &rt,
    )
}
