// incremental.rs and the session file: the steps of a session.
#![tactic(auto)]

mod quoted_step;
pub mod run_steps;
mod undo_step;

ghost use Rattle.std.specs.Prelude.{◌≡◌, false, ◌<◌, take};
ghost use Rattle.session_state.specs.State.{the_file};
ghost use Rattle.session_state.specs.Steps.{Comes, Ready, Onward};
ghost use Rattle.write_place.specs.State.{Standing};
ghost use Rattle.session_steps.specs.Effects.{told_add, StateSaved, Adding, Added};

use allocator::NodePtr;
use cache_undo::{cache_copy, undo_state};
use file_parts::{NextStep, Step};
use session_state::progress::Progress;
use session_state::{Checkpoint, StepAnswer, StepError, progress, step_records};
use write_place::Place;

// The state before an add is saved: open pairs, stack and marks, and the tree cache where a step of the file forgets or quotes.
fn save_state(work: &mut [u32], p: Progress)
    requires { (Standing work.old p.opens p.depth 0) × (p.adds < 16) }
    ensures { StateSaved work.old work.new p }
{
    undo_state::save(work, p.adds, p.opens, p.depth);
    if p.forgets {
        cache_copy::save(work, p.adds);
    }
}

// The tree of a handle is added: the state is saved, the tree entered in the cache, and written up to the next open place.
fn add(file: &[u8], work: &mut [u32], output: &mut [u8], p: Progress, node: NodePtr) -> Progress
    requires { Adding file.now work.old output.old p node.0 }
    ensures { Added file.now work.old output.old work.new output.new p node result }
{
    save_state(work, p);
    cache_update::update(work, node);
    let place = Place {
        opens: p.opens,
        depth: p.depth,
        counts: p.counts,
    };
    let o = write_loop::resume(work, file, output, place, node, p.measure);
    progress::after_outcome(p, o)
}

// An add, or a quote of it: questions 9 and 10; the tree is added, and the step's words written unless the add is refused. What a quote adds stands until
// the next step; where it is refused, the session ends as it was before. What is lent stays side by side, in each step: a signature says which slices may
// change, and a struct of `&mut` slices can carry no invariant. `quotes` stays a bool, as in the definitions: each contract would turn an enum into one.
fn add_step(
    file: &[u8],
    work: &mut [u32],
    words: &mut [u32],
    output: &mut [u8],
    p: Progress,
    node: NodePtr,
    quotes: bool,
    next: usize,
    c: Checkpoint,
) -> StepAnswer
    requires { (Ready file.now (the_file file.now) work.old words.old output.old p c) × (p.quoted ≡ false)
        × (Comes file.now p.at (told_add quotes node next)) }
    ensures { Onward file.now (the_file file.now) work.old words.old
        output.old p c work.new words.new output.new result }
{
    if let Err(error) = step_records::question(p.finished, p.adds) {
        return progress::stop(p, Err(error), c);
    }
    let saved = step_records::record_of(work, p);
    let q = add(file, work, output, p, node);
    if q.done {
        let state = progress::refusal_of(p, q, quotes);
        return StepAnswer { state, saved };
    }
    let kept = progress::with_quote(q, quotes);
    StepAnswer {
        state: step_records::note(words, kept, next),
        saved,
    }
}

// One step of the file: an add, a quote, an undo, a taking, or the end. It takes the session's state and one checkpoint record, and gives the state and the
// record to store. While a quote is open, this may be its drop alone.
pub fn core_step(
    file: &[u8],
    work: &mut [u32],
    words: &mut [u32],
    output: &mut [u8],
    p: Progress,
    c: Checkpoint,
) -> StepAnswer
    requires { Ready file.now (the_file file.now) work.old words.old output.old p c }
    ensures { Onward file.now (the_file file.now) work.old words.old
        output.old p c work.new words.new output.new result }
{
    if p.quoted {
        return quoted_step::quoted_step(file, work, words, output, p, c);
    }
    let Some(NextStep { step, next }) = file_parts::next_step(file, p.at) else {
        return progress::stop(p, Ok(()), c);
    };
    match step {
        Step::Add(node) => add_step(file, work, words, output, p, node, false, next, c),
        Step::Restore(number) => {
            undo_step::undo_step(file, work, words, output, p, number, false, next, c)
        }
        Step::Forget(number) => {
            undo_step::undo_step(file, work, words, output, p, number, true, next, c)
        }
        Step::Quote(node) => add_step(file, work, words, output, p, node, true, next, c),
        Step::Take => progress::stop(p, Err(StepError::NoQuote), c),
    }
}

// A step, with the first 65,535 bytes of the output.
pub fn bounded_step(
    work: &mut [u32],
    words: &mut [u32],
    output: &mut [u8],
    file: &[u8],
    p: Progress,
    c: Checkpoint,
) -> StepAnswer
    requires { Ready file.now (the_file file.now) work.old words.old (take 65535 output.old) p c }
    ensures { Onward file.now (the_file file.now) work.old words.old
        (take 65535 output.old) p c work.new words.new
        (take 65535 output.new) result }
{
    let space = step_records::space_of(output);
    core_step(file, work, words, &mut output[..space], p, c)
}
