// The end of a session call: what is left is cleared, and the answer.
#![tactic(auto)]

ghost use Rattle.std.specs.Prelude.{◌≡◌, ◌*◌, ◌≤◌, length};
ghost use Rattle.session_answer.specs.Answer.{answer_of, answer_at, Cleared};

use session_state::progress::Progress;

// The number, 0 for none; the count of finished steps; and the bytes written.
#[repr(C)]
#[derive(Clone, Copy, Debug, PartialEq, Eq)]
pub struct SessionAnswer {
    pub number: u32,
    pub steps: u32,
    pub size: u32,
}

// What is left is cleared: work, the words past the finished steps, and the output past the size. With 1 to 8 no slice is touched.
// `refused` says that the run was over before its first step, which p doesn't: at the end every run is over.
fn clear_rest(work: &mut [u32], words: &mut [u32], output: &mut [u8], refused: bool, p: Progress)
    requires { (3 * p.steps ≤ length words.old) × (p.counts.size ≤ length output.old) }
    ensures { Cleared p work.old words.old output.old work.new words.new
        output.new refused }
{
    if refused {
        return;
    }
    work.fill(0);
    words[3 * p.steps..].fill(0);
    output[p.counts.size..].fill(0);
}

// The answer, after what is left is cleared.
pub fn finish(
    work: &mut [u32],
    words: &mut [u32],
    output: &mut [u8],
    refused: bool,
    p: Progress,
) -> SessionAnswer
    requires { (p.steps ≤ 1024)
        × (3 * p.steps ≤ length words.old)
        × (p.counts.size ≤ 65535)
        × (p.counts.size ≤ length output.old) }
    ensures { (answer_of result ≡ answer_at p)
        × (Cleared p work.old words.old output.old work.new
        words.new output.new refused) }
{
    clear_rest(work, words, output, refused, p);
    SessionAnswer {
        number: p.number,
        steps: p.steps as u32,
        size: p.counts.size as u32,
    }
}
