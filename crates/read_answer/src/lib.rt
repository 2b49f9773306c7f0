// The reading call's answer, and its question 1.
#![tactic(auto)]

pub mod clear_slices;

ghost use Rattle.std.specs.Prelude.{◌≡◌};
ghost use Rattle.spec_reading.specs.Call.{refusal as call_refusal, long_enough};
ghost use Rattle.read_answer.specs.Answer.{slices, read_answer_of, Counts, read_answer_at};

use read_item::Reader;
use read_store::reader_stacks;

// The number, 0 for none; the root, and how many pairs, listed atoms, atom bytes and ghost pairs there are.
#[repr(C)]
#[derive(Clone, Copy, Debug, PartialEq, Eq)]
pub struct ReadAnswer {
    pub number: u32,
    pub root: u32,
    pub pairs: u32,
    pub atoms: u32,
    pub bytes: u32,
    pub ghosts: u32,
}

// The number is that of the C interface: a `ReadError` gives 14, 15 or 16, and the call itself 1 or 2.
pub fn refusal(number: u32) -> ReadAnswer
    ensures { read_answer_of result ≡ call_refusal number }
{
    ReadAnswer {
        number,
        root: 0,
        pairs: 0,
        atoms: 0,
        bytes: 0,
        ghosts: 0,
    }
}

// Question 1: how long the store's slices are at least, in words, and in bytes for the last.
pub const PAIRS: usize = 262144;

pub const ATOMS: usize = 131072;

pub const BYTES: usize = 65536;

pub fn long_enough(work: &[u32], pairs: &[u32], atoms: &[u32], bytes: &[u8]) -> bool
    ensures { result ≡ long_enough (slices work.now pairs.now atoms.now bytes.now) }
{
    words::WORK <= work.len()
        && PAIRS <= pairs.len()
        && ATOMS <= atoms.len()
        && BYTES <= bytes.len()
}

// What was read: the one value's node, and the counts.
pub fn answer(work: &[u32], r: Reader) -> ReadAnswer
    requires { Counts work.now r }
    ensures { read_answer_of result ≡ read_answer_at work.now r }
{
    ReadAnswer {
        number: 0,
        root: work[reader_stacks::VALUES],
        pairs: r.pairs as u32,
        atoms: r.atoms as u32,
        bytes: r.bytes as u32,
        ghosts: r.ghosts as u32,
    }
}
