// The state of a session between two steps, and the checkpoint record that a step takes.
#![tactic(auto)]

pub mod checkpoints;
pub mod progress;
pub mod step_error;
pub mod step_records;

ghost use Rattle.std.specs.Prelude.{◌≡◌, List, ◌<◌};
ghost use Rattle.spec_session.specs.File.{Step as FileStep};
ghost use Rattle.spec_session.specs.Places.{StepsAt};
ghost use Rattle.session_state.specs.State.{slot_for};

pub use checkpoints::Checkpoint;
use file_parts::Step;
use progress::Progress;
pub use progress::StepAnswer;
pub use step_error::StepError;

// The checkpoint record that the next step takes and stores; while a quote is open, that of its add.
pub fn slot_of(file: &[u8], p: Progress) -> usize
    ensures { (result < 16) × ((ss : List FileStep) → StepsAt file.now p.at ss → result ≡ slot_for p.quoted ss p.adds) }
{
    if p.quoted {
        return step_records::last(p.adds);
    }
    let Some(found) = file_parts::next_step(file, p.at) else {
        return 0;
    };
    match found.step {
        Step::Add(_) | Step::Quote(_) => step_records::within(p.adds),
        Step::Restore(number) | Step::Forget(number) => step_records::within(number as usize),
        Step::Take => 0,
    }
}
