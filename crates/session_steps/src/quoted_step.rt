// A step while a quote is open.
ghost use Rattle.std.specs.Prelude.{◌≡◌, true, false, ◌-◌, ◌<◌};
ghost use Rattle.session_state.specs.Moves.{noted_at, with_quote, undone_at};
ghost use Rattle.session_state.specs.Stored.{Noting, noted_words};
ghost use Rattle.session_state.specs.State.{the_file};
ghost use Rattle.session_state.specs.Steps.{Ready, Onward};
ghost use Rattle.session_steps.specs.undo_step.Effects.{Undoing, Undone};

use crate::undo_step;
use file_parts::{NextStep, Step};
use session_state::progress::Progress;
use session_state::{Checkpoint, StepAnswer, progress, step_records};

// A taking: the quote's add stays, and its words are written again.
fn take_quote(words: &mut [u32], p: Progress, next: usize, c: Checkpoint) -> StepAnswer
    requires { Noting words.old p }
    ensures { (words.new ≡ noted_words words.old p)
        × (result ≡ record { state = noted_at (with_quote p false) next; saved = c }) }
{
    let q = progress::with_quote(p, false);
    StepAnswer {
        state: step_records::note(words, q, next),
        saved: c,
    }
}

// A drop: the quote's add is taken back as a forget does. The next step is still to come.
fn drop_quote(work: &mut [u32], p: Progress, c: Checkpoint) -> StepAnswer
    requires { (0 < p.adds) × (Undoing true work.old p.depth (p.adds - 1) c) }
    ensures { (Undone true work.old work.new (p.adds - 1) c)
        × (result ≡ record { state = undone_at p c (p.adds - 1); saved = c }) }
{
    let last = p.adds - 1;
    undo_step::undo(work, p.depth, last, true, c);
    StepAnswer {
        state: progress::undone(p, last, c),
        saved: c,
    }
}

// The quote is taken, or dropped before any other step.
pub fn quoted_step(
    file: &[u8],
    work: &mut [u32],
    words: &mut [u32],
    output: &[u8],
    p: Progress,
    c: Checkpoint,
) -> StepAnswer
    requires { (Ready file.now (the_file file.now) work.old words.old output.now p c) × (p.quoted ≡ true) }
    ensures { Onward file.now (the_file file.now) work.old words.old
        output.now p c work.new words.new output.now result }
{
    match file_parts::next_step(file, p.at) {
        Some(
            NextStep {
                step: Step::Take,
                next,
            },
        ) => take_quote(words, p, next, c),
        _ => drop_quote(work, p, c),
    }
}
