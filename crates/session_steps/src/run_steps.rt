// The steps of a session, one after the other, with the checkpoint records in a lent slice of structs.
ghost use Rattle.session_steps.specs.Driven.{Going, Driven};

use session_state::Checkpoint;
use session_state::progress::Progress;

// The steps, to the end of the file or to the first that is refused. A run that is over stays as it is.
pub fn run_steps(
    checkpoints: &mut [Checkpoint],
    work: &mut [u32],
    words: &mut [u32],
    output: &mut [u8],
    file: &[u8],
    start: Progress,
) -> Progress
    requires { Going file.now work.old words.old checkpoints.old output.old start start.done }
    ensures { Driven file.now work.old words.old checkpoints.old
        output.old start work.new words.new checkpoints.new
        output.new result start.done }
{
    let mut p = start;
    while !p.done {
        let k = session_state::slot_of(file, p);
        let c = checkpoints[k];
        let a = crate::bounded_step(work, words, output, file, p, c);
        checkpoints[k] = a.saved;
        p = a.state;
    }
    p
}
