// The stack of tree_cache.rs, in work: an entry pushed, and pushed and marked.
#![tactic(auto)]

pub mod marks;
pub mod stack_pop;

ghost use Rattle.std.specs.Prelude.{◌≤◌, ◌<◌, length};
ghost use Rattle.words.specs.Words.{WORK};
ghost use Rattle.work_layout.specs.Layout.{ENTRIES, DEPTH};
ghost use Rattle.cache_stack.specs.Effects.{Stacked, Pushed, PushedMarked};

use work_layout::{BELOW, EntryIndex, STACK, TOPS};

// An entry is marked written, and referred to, only from this length on: a reference to anything shorter takes no fewer bytes.
pub const MIN_SERIALIZED_LENGTH: u64 = 4;

// Entry e goes on top of the `depth` entries that are there.
pub fn push(work: &mut [u32], depth: usize, e: EntryIndex)
    requires { (WORK ≤ length work.old) × (Stacked work.old depth) × (depth < DEPTH) × (e.0 < ENTRIES) }
    ensures { Pushed work.old work.new depth e.0 }
{
    let x = e.0 as usize;
    let below = work[TOPS + x];
    work[STACK + depth] = e.0;
    work[BELOW + depth] = below;
    work[TOPS + x] = (depth + 1) as u32;
}

// Entry e, of length `len`, goes on top of the `depth` entries that are there, and is marked written unless it is too short to be referred to.
pub fn push_marked(work: &mut [u32], depth: usize, e: EntryIndex, len: u64)
    requires { (WORK ≤ length work.old) × (Stacked work.old depth) × (depth < DEPTH) × (e.0 < ENTRIES) }
    ensures { PushedMarked work.old work.new depth e.0 len }
{
    push(work, depth, e);
    if len >= MIN_SERIALIZED_LENGTH {
        marks::mark(work, e);
    }
}
