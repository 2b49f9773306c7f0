// The session file: its atoms, pairs and steps, read from a file that passed.
#![tactic(auto)]

pub mod session_file;

ghost use Rattle.std.specs.Prelude.{◌≡◌, List, ℕ, ◌+◌, ◌-◌, ◌*◌, ◌<◌, ◌≤◌, length, MatchOption};
ghost use Rattle.words.specs.BigEndian.{number};
ghost use Rattle.words.specs.Words.{part};
ghost use Rattle.spec_session.specs.File.{Pair, Step as FileStep};
ghost use Rattle.spec_session.specs.Places.{AtomsAt, PairsAt, StepsAt};
ghost use Rattle.file_parts.specs.Loaded.{AtomsThere, AtomsLoaded, PairsThere, PairsLoaded, FirstStep, Beyond, forgets};

use allocator::NodePtr;
pub use session_file::{Checked, FileError, NextStep, Part, Step};

// Where the bytes of atom i start and end, as words 2·i and 2·i + 1. The rest of the table is as it was.
pub fn load_atoms(file: &[u8], table: &mut [u32], count: u32)
    requires { (AtomsThere file.now count) × (2 * count ≤ length table.old) }
    ensures { (xs : List (List ℕ)) → length xs ≡ count → AtomsAt file.now 7 xs
        → AtomsLoaded file.now xs table.old table.new }
{
    let mut place: usize = 7;
    for i in 0..count as usize {
        let start = place + 2;
        let end = start + session_file::number_at(file, place, 2) as usize;
        table[2 * i] = start as u32;
        table[2 * i + 1] = end as u32;
        place = end;
    }
}

// The left and the right handle of pair i, as words 2·i and 2·i + 1. The pairs begin at `from`; the rest of the table is as it was.
pub fn load_pairs(file: &[u8], table: &mut [u32], from: usize, count: u32)
    requires { (PairsThere file.now from count) × (2 * count ≤ length table.old) }
    ensures { (ps : List Pair) → length ps ≡ count → PairsAt file.now from ps
        → PairsLoaded ps table.old table.new }
{
    let mut place = from;
    for i in 0..count as usize {
        let left = session_file::number_at(file, place, 4);
        let right = session_file::number_at(file, place + 4, 4);
        table[2 * i] = left;
        table[2 * i + 1] = right;
        place += 8;
    }
}

// The operand of `count` bytes after the code at a place, where the file has it.
fn operand_at(file: &[u8], at: usize, count: usize) -> Option<u32>
    requires { (at < length file.now) × (count ≤ 4) }
    ensures { MatchOption result (length file.now - at < count + 1)
        (λ n. (at + 1 + count ≤ length file.now) × (n ≡ number (part file.now (at + 1) count))) }
{
    if file.len() - at <= count {
        return None;
    }
    Some(session_file::number_at(file, at + 1, count))
}

// The step at a place of a file that passed. There is none at the end, nor where the file is cut short, which it is not.
pub fn next_step(file: &[u8], at: usize) -> Option<NextStep>
    ensures first_step { (ss : List FileStep) → StepsAt file.now at ss → FirstStep file.now ss result }
    ensures beyond { Beyond file.now at result }
{
    if file.len() <= at {
        return None;
    }
    let (step, size) = match session_file::number_at(file, at, 1) {
        1 => (Step::Add(NodePtr(operand_at(file, at, 4)?)), 5),
        4 => (Step::Quote(NodePtr(operand_at(file, at, 4)?)), 5),
        3 => (Step::Forget(operand_at(file, at, 2)?), 3),
        5 => (Step::Take, 1),
        _ => (Step::Restore(operand_at(file, at, 2)?), 3),
    };
    Some(NextStep {
        step,
        next: at + size,
    })
}

// Whether one of the steps from this place on is a forget or a quote.
pub fn has_forget(file: &[u8], at: usize) -> bool
    ensures { (ss : List FileStep) → StepsAt file.now at ss → result ≡ forgets ss }
{
    let mut place = at;
    while let Some(found) = next_step(file, place) {
        match found.step {
            Step::Forget(_) | Step::Quote(_) => return true,
            Step::Add(_) | Step::Restore(_) | Step::Take => place = found.next,
        }
    }
    false
}
