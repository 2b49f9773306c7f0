// The session calls: a session file is checked, its tables are loaded, and its steps are run. They differ in the measure of a found path.
#![tactic(auto)]

mod run_session;

ghost use Rattle.std.specs.Prelude.{◌≡◌};
ghost use Rattle.path.specs.Measure.{counted, documented};
ghost use Rattle.spec_session.specs.File.{version_1};
ghost use Rattle.spec_session.specs.Call.{session};
ghost use Rattle.session_state.specs.Records.{blank};
ghost use Rattle.session_call.specs.Outcome.{slices, result_of, ReadsBack};

use path::Measure;
use session_answer::SessionAnswer;
use session_state::Checkpoint;

// A session file is run. The slices are lent: work, three words for each step, sixteen checkpoint records, and the output. A found path is measured by the
// Rust's ranges.
pub fn nikvoldra_session(
    file: &[u8],
    work: &mut [u32],
    words: &mut [u32],
    checkpoints: &mut [Checkpoint],
    output: &mut [u8],
) -> SessionAnswer
    ensures output_after { result_of result work.new words.new checkpoints.new output.new
        ≡ session blank version_1 counted file.now
        (slices work.old words.old checkpoints.old output.old) }
    ensures reads_back { ReadsBack counted file.now
        (result_of result work.new words.new checkpoints.new output.new) }
{
    run_session::run_session(file, work, words, checkpoints, output, Measure::Counted)
}

// The same, but a found path is measured as the documentation has it: a reference is written where it is no longer than what it stands for.
pub fn nikvoldra_session_documented(
    file: &[u8],
    work: &mut [u32],
    words: &mut [u32],
    checkpoints: &mut [Checkpoint],
    output: &mut [u8],
) -> SessionAnswer
    ensures output_after { result_of result work.new words.new checkpoints.new output.new
        ≡ session blank version_1 documented file.now
        (slices work.old words.old checkpoints.old output.old) }
    ensures reads_back { ReadsBack documented file.now
        (result_of result work.new words.new checkpoints.new output.new) }
{
    run_session::run_session(file, work, words, checkpoints, output, Measure::Documented)
}
