// One run of a session file, by either measure of a path.
ghost use Rattle.std.specs.Prelude.{◌≡◌};
ghost use Rattle.path.specs.Measure.{measure_of};
ghost use Rattle.spec_session.specs.File.{version_1};
ghost use Rattle.spec_session.specs.Call.{session};
ghost use Rattle.session_state.specs.Records.{blank};
ghost use Rattle.session_call.specs.Outcome.{slices, result_of, ReadsBack};

use path::Measure;
use session_answer::SessionAnswer;
use session_state::{Checkpoint, checkpoints};
use session_steps::run_steps;

// A session file is checked, its tables are loaded, and its steps are run. A found path is used where its measure is less than what it stands for.
pub fn run_session(
    file: &[u8],
    work: &mut [u32],
    words: &mut [u32],
    checkpoints: &mut [Checkpoint],
    output: &mut [u8],
    measure: Measure,
) -> SessionAnswer
    ensures output_after { result_of result work.new words.new checkpoints.new output.new
        ≡ session blank version_1 (measure_of measure) file.now
        (slices work.old words.old checkpoints.old output.old) }
    ensures reads_back { ReadsBack (measure_of measure) file.now
        (result_of result work.new words.new checkpoints.new output.new) }
{
    let many = words.len();
    let records = checkpoints.len();
    let begun = session_begin::begin(file, work, many, records, measure);
    let start = begun.start;
    let used = begun.records;
    let p = run_steps::run_steps(checkpoints, work, words, output, file, start);
    checkpoints::clear_first(checkpoints, used);
    session_answer::finish(work, words, output, start.done, p)
}
