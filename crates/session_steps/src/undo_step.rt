// An undo, a restore or a forget: the state before an add is the present one again.
ghost use Rattle.std.specs.Prelude.{◌≡◌, false, ◌≤◌, length};
ghost use Rattle.words.specs.Words.{WORK};
ghost use Rattle.session_state.specs.State.{the_file};
ghost use Rattle.session_state.specs.Steps.{Comes, told_undo, Ready, Onward};
ghost use Rattle.session_steps.specs.undo_step.Effects.{Brings, CacheBack, Undoing, Undone};

use cache_undo::cache_copy;
use session_state::progress::Progress;
use session_state::{Checkpoint, StepAnswer, StepError, progress, step_records};

// What an undo does to the tree cache: a forget puts back that of copy `number`, a restore the sentinel's entry alone. Entries are not freed by a restore.
// `forgets` stays a bool, as in the definitions: each contract would turn an enum into one.
fn bring_cache(work: &mut [u32], number: usize, forgets: bool, c: Checkpoint)
    requires { (WORK ≤ length work.old) × (Brings forgets work.old number) }
    ensures { CacheBack forgets work.old work.new number c }
{
    if forgets {
        cache_copy::bring(work, number);
        work[work_layout::SENTINEL_ENTRY] = c.sentinel;
    } else {
        step_records::bring_entry(work, c);
    }
}

// The state of copy `number` and its record is the present one again, over a stack of `depth` entries.
pub fn undo(work: &mut [u32], depth: usize, number: usize, forgets: bool, c: Checkpoint)
    requires { Undoing forgets work.old depth number c }
    ensures { Undone forgets work.old work.new number c }
{
    bring_cache(work, number, forgets, c);
    cache_undo::restore(work, number, c.opens as usize, depth, c.depth as usize);
}

// An undo: question 11; the state before an add is the present one again, and the step's words are written.
pub fn undo_step(
    file: &[u8],
    work: &mut [u32],
    words: &mut [u32],
    output: &[u8],
    p: Progress,
    number: u32,
    forgets: bool,
    next: usize,
    c: Checkpoint,
) -> StepAnswer
    requires { (Ready file.now (the_file file.now) work.old words.old output.now p c) × (p.quoted ≡ false)
        × (Comes file.now p.at (told_undo forgets number next)) }
    ensures { Onward file.now (the_file file.now) work.old words.old
        output.now p c work.new words.new output.now result }
{
    let n = number as usize;
    if n >= p.adds {
        return progress::stop(p, Err(StepError::NoSuchAdd), c);
    }
    undo(work, p.depth, n, forgets, c);
    let q = progress::undone(p, n, c);
    StepAnswer {
        state: step_records::note(words, q, next),
        saved: c,
    }
}
