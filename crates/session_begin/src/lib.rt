// The start of a session call: questions 1 to 8, and the tables of a file that passes.
#![tactic(auto)]

mod session_lengths;

ghost use Rattle.std.specs.Prelude.{◌≡◌, ◌≤◌, length};
ghost use Rattle.words.specs.Words.{WORK};
ghost use Rattle.words.specs.Lists.{Bytes};
ghost use Rattle.file_parts.specs.Checked.{Passed};
ghost use Rattle.session_state.specs.State.{the_file};
ghost use Rattle.session_begin.specs.Opened.{PartClear, TablesClear, Placed, Opened, start_at};
ghost use Rattle.session_begin.specs.Begins.{asked, refused_with, Begins};

use file_parts::Checked;
use path::Measure;
use session_state::progress::Progress;
use write_counts::Counts;

// Where the run starts, and how many checkpoint records are to be cleared after it. With 1 to 8 the run is over before it starts, and no record is cleared.
// This is no Result, since the call goes on with `start` either way.
#[derive(Clone, Copy, Debug, PartialEq, Eq)]
pub struct Begun {
    pub start: Progress,
    pub records: usize,
}

// The words from one place up to another become zero.
fn clear_part(work: &mut [u32], from: usize, to: usize)
    requires { (from ≤ to) × (to ≤ length work.old) }
    ensures { PartClear work.old work.new from to }
{
    work[from..to].fill(0);
}

// What is read before it is written becomes zero.
fn clear_tables(work: &mut [u32])
    requires { WORK ≤ length work.old }
    ensures { TablesClear work.new }
{
    clear_part(work, work_layout::ATOM_HEADS, work_layout::ATOM_NEXT);
    clear_part(work, work_layout::TOPS, work_layout::CLEARED);
}

// The places of the atoms and the handles of the pairs go to work; the heads of the atoms' slots are zero, and from TOPS up to the parents all words.
fn load_places(file: &[u8], tables: &mut [u32], checked: Checked)
    requires { (Passed file.now (the_file file.now) checked) × (WORK ≤ length tables.old) }
    ensures { Placed file.now (the_file file.now) tables.new }
{
    clear_tables(tables);
    file_parts::load_atoms(
        file,
        &mut tables[work_layout::ATOMS..work_layout::PAIRS],
        checked.atoms,
    );
    file_parts::load_pairs(
        file,
        &mut tables[work_layout::PAIRS..work_layout::FIRST],
        checked.pairs_at,
        checked.pairs,
    );
}

// The tables of the file go to work; from TOPS up to the parents all words are zero.
fn open(file: &[u8], work: &mut [u32], checked: Checked)
    requires { (Passed file.now (the_file file.now) checked) × (WORK ≤ length work.old) }
    ensures { Opened file.now (the_file file.now) work.new }
{
    load_places(file, work, checked);
    file_tables::load_firsts(work, file, checked.atoms as usize);
    work[work_layout::ATOM_COUNT] = checked.atoms;
    work[work_layout::PAIR_COUNT] = checked.pairs;
    work[work_layout::SENTINEL] = checked.sentinel;
}

// The start of the steps, which stand from this place of the file on; whether one of them forgets or quotes; the measure of a path.
fn start_at(measure: Measure, at: usize, forgets: bool) -> Progress
    ensures { result ≡ start_at measure at forgets }
{
    Progress {
        at,
        steps: 0,
        adds: 0,
        opens: 0,
        depth: 0,
        counts: Counts::default(),
        finished: false,
        number: 0,
        done: false,
        forgets,
        quoted: false,
        measure,
    }
}

// The call ends with this number.
fn refused(measure: Measure, number: u32) -> Begun
    ensures { result ≡ record { start = refused_with measure number; records = 0 } }
{
    let start = Progress {
        number,
        done: true,
        ..start_at(measure, 0, false)
    };
    Begun { start, records: 0 }
}

// The steps come next, from this place of the file on.
fn started(measure: Measure, at: usize, forgets: bool, records: usize) -> Begun
    ensures { result ≡ record { start = start_at measure at forgets; records = records } }
{
    Begun {
        start: start_at(measure, at, forgets),
        records,
    }
}

// Questions 1 to 8, of so many words and checkpoint records. Where all get yes, the tables of the file are loaded.
pub fn begin(file: &[u8], work: &mut [u32], words: usize, records: usize, measure: Measure) -> Begun
    ensures { (Bytes file.now)
        × (Begins measure file.now work.old words records work.new result
        (asked file.now (length work.old) words records)) }
{
    if !session_lengths::long_enough(work.len(), words, records) {
        return refused(measure, 1);
    }
    let checked = match file_check::check(file) {
        Ok(checked) => checked,
        Err(error) => return refused(measure, u32::from(error)),
    };
    open(file, work, checked);
    let forgets = file_parts::has_forget(file, checked.steps_at);
    started(measure, checked.steps_at, forgets, records)
}
