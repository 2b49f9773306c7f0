// What a step asks and stores: questions 9 and 10, the checkpoint record, the step's words; and how much of the output is used.
ghost use Rattle.std.specs.Prelude.{◌≡◌, ◌+◌, ◌-◌, ◌*◌, ◌^◌, ◌≤◌, ◌<◌, min, length};
ghost use Rattle.std.proofs.Math.Seq.{paste};
ghost use Rattle.words.specs.Words.{WORK};
ghost use Rattle.session_state.specs.Errors.{number_in};
ghost use Rattle.session_state.specs.Moves.{noted_at};
ghost use Rattle.path.specs.Bytes.{bit};
ghost use Rattle.write_counts.specs.Counts.{Bounded};
ghost use Rattle.session_state.specs.Stored.{told, Noting, noted_words, record_of, with_entry};
ghost use Rattle.session_state.specs.Questions.{question_of};
ghost use Rattle.session_state.specs.State.{low_slot};

use crate::checkpoints::Checkpoint;
use crate::progress::Progress;
use crate::step_error::StepError;
use write_counts::Counts;

// The most adds on the present history.
const ADDS: usize = 16;

// The most bytes of output that are used.
const OUTPUT: usize = 65535;

// A number of a checkpoint record, or 0.
pub fn within(n: usize) -> usize
    ensures { (result < 16) × (result ≡ low_slot n) }
{
    if n < ADDS { n } else { 0 }
}

// The checkpoint record of the last add.
pub fn last(adds: usize) -> usize
    ensures { (result < 16) × (result ≡ low_slot (adds - 1)) }
{
    within(adds.saturating_sub(1))
}

// The checkpoint record of the present state.
pub fn record_of(work: &[u32], p: Progress) -> Checkpoint
    requires { (WORK ≤ length work.now) × (p.opens < 2 ^ 32) × (p.depth < 2 ^ 32) × (p.counts.size < 2 ^ 32) × (Bounded p.counts) }
    ensures { result ≡ record_of work.now p }
{
    Checkpoint {
        opens: p.opens as u32,
        depth: p.depth as u32,
        size: p.counts.size as u32,
        references: p.counts.references as u32,
        prefix_bytes: p.counts.prefix_bytes as u32,
        sentinel: work[work_layout::SENTINEL_ENTRY],
    }
}

// A step's first word: the size times 2, and 1 more where the session is finished.
fn word_of(size: usize, finished: bool) -> u32
    requires { size ≤ 65535 }
    ensures { result ≡ size * 2 + bit finished }
{
    size as u32 * 2 + u32::from(finished)
}

// The words of a finished step are written.
fn tell(words: &mut [u32], at: usize, counts: Counts, finished: bool)
    requires { (at + 3 ≤ length words.old) × (counts.size ≤ 65535) × (Bounded counts) }
    ensures { words.new ≡ paste words.old at (told counts finished) 3 }
{
    words[at] = word_of(counts.size, finished);
    words[at + 1] = counts.references as u32;
    words[at + 2] = counts.prefix_bytes as u32;
}

// A finished step: its words are written, and the next step is at `next`.
pub fn note(words: &mut [u32], p: Progress, next: usize) -> Progress
    requires { Noting words.old p }
    ensures { (words.new ≡ noted_words words.old p) × (result ≡ noted_at p next) }
{
    tell(words, 3 * p.steps, p.counts, p.finished);
    Progress {
        at: next,
        steps: p.steps + 1,
        ..p
    }
}

// A restore: the sentinel's entry of a checkpoint record. One that was not there stays as it is.
pub fn bring_entry(work: &mut [u32], c: Checkpoint)
    requires { WORK ≤ length work.old }
    ensures { work.new ≡ with_entry work.old c.sentinel }
{
    if c.sentinel != 0 {
        work[work_layout::SENTINEL_ENTRY] = c.sentinel;
    }
}

// Questions 9 and 10 of an add: no in a finished session, and after sixteen adds.
pub fn question(ended: bool, adds: usize) -> Result<(), StepError>
    ensures { number_in result ≡ question_of ended adds }
{
    if ended {
        Err(StepError::Finished)
    } else if adds >= ADDS {
        Err(StepError::TooManyAdds)
    } else {
        Ok(())
    }
}

// The bytes of output that are used.
pub fn space_of(output: &[u8]) -> usize
    ensures { result ≡ min (length output.now) 65535 }
{
    output.len().min(OUTPUT)
}
