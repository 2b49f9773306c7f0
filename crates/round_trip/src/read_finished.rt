// The finished bytes of a session's output, read.
ghost use Rattle.std.specs.Prelude.{◌≡◌, take};
ghost use Rattle.spec_reading.specs.Call.{reading};
ghost use Rattle.read_answer.specs.Answer.{slices as store_slices};
ghost use Rattle.read_call.specs.Outcome.{read_result_of};

use read_answer::ReadAnswer;
use session_answer::SessionAnswer;

// The bytes that the session wrote are read, or the output where it is shorter.
pub fn read_first(
    output: &[u8],
    session: SessionAnswer,
    work: &mut [u32],
    pairs: &mut [u32],
    atoms: &mut [u32],
    bytes: &mut [u8],
) -> ReadAnswer
    ensures { read_result_of result work.new pairs.new atoms.new bytes.new
        ≡ reading (take session.size output.now)
        (store_slices work.old pairs.old atoms.old bytes.old) }
{
    let n = output.len().min(session.size as usize);
    read_call::nikvoldra_read(&output[..n], work, pairs, atoms, bytes)
}
