// The calls for C: each calls the library's function of that name and states its clauses again. include/nikvoldra.h declares them.
#![tactic(auto)]

ghost use Rattle.std.specs.Prelude.{◌≡◌};
ghost use Rattle.path.specs.Measure.{counted, documented};
ghost use Rattle.spec_reading.specs.Call.{reading};
ghost use Rattle.spec_reading.specs.Promise.{ReadsPlainly};
ghost use Rattle.spec_session.specs.File.{version_1};
ghost use Rattle.spec_session.specs.Call.{session};
ghost use Rattle.read_answer.specs.Answer.{slices as read_slices};
ghost use Rattle.read_call.specs.Outcome.{read_result_of};
ghost use Rattle.session_state.specs.Records.{blank};
ghost use Rattle.session_call.specs.Outcome.{slices, result_of, ReadsBack};

use read_answer::ReadAnswer;
use session_answer::SessionAnswer;
use session_state::Checkpoint;

// Reads a serialized tree into a fresh, empty store. The slices are lent: work, and the pairs, atoms and atom bytes of the store.
#[unsafe(no_mangle)]
pub extern "C" fn nikvoldra_read(
    input: &[u8],
    work: &mut [u32],
    pairs: &mut [u32],
    atoms: &mut [u32],
    bytes: &mut [u8],
) -> ReadAnswer
    ensures bytes_after { read_result_of result work.new pairs.new atoms.new bytes.new
        ≡ reading input.now
        (read_slices work.old pairs.old atoms.old bytes.old) }
    ensures reads_plainly { ReadsPlainly input.now
        (read_result_of result work.new pairs.new atoms.new bytes.new) }
{
    read_call::nikvoldra_read(input, work, pairs, atoms, bytes)
}

// A session file is run. The slices are lent: work, three words for each step, sixteen checkpoint records, and the output. A found path is measured by the
// Rust's ranges.
#[unsafe(no_mangle)]
pub extern "C" fn nikvoldra_session(
    file: &[u8],
    work: &mut [u32],
    words: &mut [u32],
    checkpoints: &mut [Checkpoint],
    output: &mut [u8],
) -> SessionAnswer
    ensures output_after { result_of result work.new words.new checkpoints.new output.new
        ≡ session blank version_1 counted file.now
        (slices work.old words.old checkpoints.old output.old) }
    ensures reads_back { ReadsBack counted file.now
        (result_of result work.new words.new checkpoints.new output.new) }
{
    session_call::nikvoldra_session(file, work, words, checkpoints, output)
}

// The same, but a found path is measured as the documentation has it: a reference is written where it is no longer than what it stands for.
#[unsafe(no_mangle)]
pub extern "C" fn nikvoldra_session_documented(
    file: &[u8],
    work: &mut [u32],
    words: &mut [u32],
    checkpoints: &mut [Checkpoint],
    output: &mut [u8],
) -> SessionAnswer
    ensures output_after { result_of result work.new words.new checkpoints.new output.new
        ≡ session blank version_1 documented file.now
        (slices work.old words.old checkpoints.old output.old) }
    ensures reads_back { ReadsBack documented file.now
        (result_of result work.new words.new checkpoints.new output.new) }
{
    session_call::nikvoldra_session_documented(file, work, words, checkpoints, output)
}
