// Where a session stands between two steps, and how an add, an undo and a refusal move it.
ghost use Rattle.std.specs.Prelude.{◌≡◌, ◌<◌};
ghost use Rattle.session_state.specs.Errors.{number_in};
ghost use Rattle.session_state.specs.Moves.{refused_at, moved_to, after_outcome, counts_in, undone_at, stopped_at, with_quote, refusal_of};

use crate::checkpoints::Checkpoint;
use crate::step_error;
use crate::step_error::StepError;
use path::Measure;
use write_counts::Counts;
use write_place::{Outcome, Place, Refused};

// Where a session stands: the next step's place in the file, the finished steps, the adds on the present history, the open pairs, the depth of the stack,
// what is counted of the items written, and whether the session is finished. The run is done at the end of the file, with number 0, or where a question
// gets no, with the question's number, as in the definitions' run: questions 1 to 8, asked before any step, end a run too. `forgets` says whether a step of
// the file is a forget or a quote: then each add saves the tree cache too. While a quote is open (`quoted`) its add stands as the last one of the history,
// until it is taken or dropped. `measure` is that of the call, and stays.
#[derive(Clone, Copy, Debug, PartialEq, Eq)]
pub struct Progress {
    pub at: usize,
    pub steps: usize,
    pub adds: usize,
    pub opens: usize,
    pub depth: usize,
    pub counts: Counts,
    pub finished: bool,
    pub number: u32,
    pub done: bool,
    pub forgets: bool,
    pub quoted: bool,
    pub measure: Measure,
}

// After a step: where the session stands, and the checkpoint record to store.
#[derive(Clone, Copy, Debug, PartialEq, Eq)]
pub struct StepAnswer {
    pub state: Progress,
    pub saved: Checkpoint,
}

// The run ends, at the end of the file or with an error.
fn ended(p: Progress, end: Result<(), StepError>) -> Progress
    ensures { result ≡ refused_at p (number_in end) }
{
    Progress {
        number: step_error::number(end),
        done: true,
        ..p
    }
}

// Where the writer stands after an add.
fn moved(p: Progress, q: Place, adds: usize, finished: bool) -> Progress
    ensures { result ≡ moved_to p q adds finished }
{
    Progress {
        adds,
        opens: q.opens,
        depth: q.depth,
        counts: q.counts,
        finished,
        number: 0,
        done: false,
        quoted: false,
        ..p
    }
}

// Where the session stands after an add. A refused one counts the whole items that it wrote.
pub fn after_outcome(p: Progress, o: Result<Outcome, Refused>) -> Progress
    requires { p.adds < 16 }
    ensures { result ≡ after_outcome p o }
{
    match o {
        Ok(Outcome::Done(q)) => moved(p, q, p.adds + 1, true),
        Ok(Outcome::Stopped(q)) => moved(p, q, p.adds + 1, false),
        Err(r) => ended(moved(p, r.place, p.adds, false), Err(r.error.into())),
    }
}

// A quote is open, or none.
pub fn with_quote(p: Progress, quoted: bool) -> Progress
    ensures { result ≡ with_quote p quoted }
{
    Progress { quoted, ..p }
}

// Where the session stands after a refused add q, or after a quote of it: then where it stood before.
pub fn refusal_of(p: Progress, q: Progress, quotes: bool) -> Progress
    ensures { result ≡ refusal_of quotes p q }
{
    if quotes {
        Progress {
            number: q.number,
            done: true,
            ..p
        }
    } else {
        q
    }
}

// What was counted, as a checkpoint record has it.
fn counts_in(c: Checkpoint) -> Counts
    ensures { result ≡ counts_in c }
{
    Counts {
        size: c.size as usize,
        references: c.references as usize,
        prefix_bytes: c.prefix_bytes as usize,
    }
}

// Where the session stands after an undo.
pub fn undone(p: Progress, number: usize, c: Checkpoint) -> Progress
    ensures { result ≡ undone_at p c number }
{
    let place = Place {
        opens: c.opens as usize,
        depth: c.depth as usize,
        counts: counts_in(c),
    };
    moved(p, place, number, false)
}

// The run ends, and the checkpoint record stays.
pub fn stop(p: Progress, end: Result<(), StepError>, c: Checkpoint) -> StepAnswer
    ensures { result ≡ stopped_at p (number_in end) c }
{
    StepAnswer {
        state: ended(p, end),
        saved: c,
    }
}
