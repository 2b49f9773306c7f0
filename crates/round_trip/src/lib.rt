// A session file is run, and the finished bytes are read.
#![tactic(auto)]

mod read_finished;

ghost use Rattle.round_trip.specs.RoundTrip.{lists, Trip};

use read_answer::ReadAnswer;
use session_answer::SessionAnswer;
use session_state::Checkpoint;

// What the session gives, and what the reading of its bytes gives.
#[derive(Clone, Copy, Debug, PartialEq, Eq)]
pub struct RoundTrip {
    pub session: SessionAnswer,
    pub read: ReadAnswer,
}

// The session call, and then the reading call with the bytes that it wrote. Both use the same work.
pub fn round_trip(
    file: &[u8],
    work: &mut [u32],
    words: &mut [u32],
    checkpoints: &mut [Checkpoint],
    output: &mut [u8],
    pairs: &mut [u32],
    atoms: &mut [u32],
    bytes: &mut [u8],
) -> RoundTrip
    ensures { Trip file.now
        (lists work.old words.old checkpoints.old output.old
        pairs.old atoms.old bytes.old)
        (lists work.new words.new checkpoints.new output.new
        pairs.new atoms.new bytes.new) result }
{
    let session = session_call::nikvoldra_session(file, work, words, checkpoints, output);
    let read = read_finished::read_first(output, session, work, pairs, atoms, bytes);
    RoundTrip { session, read }
}
