// incremental.rs: the copies of undo in work: where they lie, and one saved.
ghost use Rattle.std.specs.Prelude.{◌≤◌, ◌<◌, length};
ghost use Rattle.words.specs.Words.{WORK};
ghost use Rattle.work_layout.specs.Layout.{DEPTH};
ghost use Rattle.cache_undo.specs.undo_state.Effects.{Saved};

use words::slices;
use work_layout::{COPIES, COPY, OPEN, STACK, WRITTEN};

// Where the stack and the marks lie in a copy of undo, after the open pairs.
pub const COPIED_STACK: usize = 4096;

pub const COPIED_MARKS: usize = 8193;

// The words of the marks.
pub const MARKS: usize = 96;

// Copy k of undo gets the first `opens` open pairs, the `depth` entries of the stack, and the marks.
pub fn save(work: &mut [u32], k: usize, opens: usize, depth: usize)
    requires { (WORK ≤ length work.old) × (k < 16) × (opens ≤ 4096) × (depth ≤ DEPTH) }
    ensures { Saved work.old work.new k opens depth }
{
    let to = COPIES + k * COPY;
    slices::copy_within(work, OPEN, to, opens);
    slices::copy_within(work, STACK, to + COPIED_STACK, depth);
    slices::copy_within(work, WRITTEN, to + COPIED_MARKS, MARKS);
}
