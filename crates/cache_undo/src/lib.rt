// incremental.rs: a copy of undo in work, restored.
#![tactic(auto)]

pub mod cache_copy;
pub mod undo_state;

ghost use Rattle.std.specs.Prelude.{ℕ, ◌+◌, ◌≤◌, ◌<◌, length};
ghost use Rattle.words.specs.Words.{at, WORK};
ghost use Rattle.work_layout.specs.Layout.{WRITTEN, ENTRIES, DEPTH};
ghost use Rattle.cache_stack.specs.Effects.{Stacked};
ghost use Rattle.cache_undo.specs.undo_state.Effects.{copied_stack};
ghost use Rattle.cache_undo.specs.Effects.{PoppedAll, PushedAll, Restored};

use cache_stack::stack_pop;
use undo_state::{COPIED_MARKS, COPIED_STACK, MARKS};
use words::slices;
use work_layout::{COPIES, COPY, EntryIndex, OPEN, WRITTEN};

// All `depth` entries go.
fn pop_all(work: &mut [u32], depth: usize)
    requires { (WORK ≤ length work.old) × (Stacked work.old depth) }
    ensures { PoppedAll work.old work.new }
{
    for left in (0..depth).rev() {
        stack_pop::pop(work, left + 1);
    }
}

// The `depth` entries that stand from `from` on go on the empty stack, the first one first.
fn push_all(work: &mut [u32], from: usize, depth: usize)
    requires { (WORK ≤ length work.old)
        × (Stacked work.old 0)
        × (depth ≤ DEPTH)
        × (WRITTEN ≤ from)
        × (from + depth ≤ WORK)
        × ((i : ℕ) → i < depth → at work.old (from + i) < ENTRIES) }
    ensures { PushedAll work.old work.new from depth }
{
    for i in 0..depth {
        let e = EntryIndex(work[from + i]);
        cache_stack::push(work, i, e);
    }
}

// The first `opens` open pairs, the `depth` entries of the stack and the marks become those of copy k. The stack has `present` entries before.
pub fn restore(work: &mut [u32], k: usize, opens: usize, present: usize, depth: usize)
    requires { (WORK ≤ length work.old)
        × (Stacked work.old present)
        × (k < 16)
        × (opens ≤ 4096)
        × (depth ≤ DEPTH)
        × ((i : ℕ) → i < depth → at work.old (copied_stack k + i) < ENTRIES) }
    ensures { Restored work.old work.new k opens depth }
{
    let from = COPIES + k * COPY;
    pop_all(work, present);
    push_all(work, from + COPIED_STACK, depth);
    slices::copy_within(work, from, OPEN, opens);
    slices::copy_within(work, from + COPIED_MARKS, WRITTEN, MARKS);
}
