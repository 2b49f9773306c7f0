// The stack of tree_cache.rs, in work: entries popped.
ghost use Rattle.std.specs.Prelude.{◌≡◌, ◌+◌, ◌≤◌, ◌<◌, length};
ghost use Rattle.words.specs.Words.{at, WORK};
ghost use Rattle.work_layout.specs.Layout.{STACK, ENTRIES};
ghost use Rattle.cache_stack.specs.Effects.{Stacked, Popped, PoppedTwo};

use work_layout::{BELOW, EntryIndex, STACK, TOPS};

// The entry at a place of the stack.
fn entry_at(work: &[u32], depth: usize, i: usize) -> EntryIndex
    requires { (WORK ≤ length work.now) × (Stacked work.now depth) × (i < depth) }
    ensures { (result.0 ≡ at work.now (STACK + i)) × (result.0 < ENTRIES) }
{
    EntryIndex(work[STACK + i])
}

// The top of `depth` entries goes.
pub fn pop(work: &mut [u32], depth: usize)
    requires { (WORK ≤ length work.old) × (Stacked work.old depth) × (0 < depth) }
    ensures { Popped work.old work.new depth }
{
    let i = depth - 1;
    let e = entry_at(work, depth, i);
    let x = e.0 as usize;
    work[TOPS + x] = work[BELOW + i];
}

// The two topmost of `depth` entries go.
pub fn pop2(work: &mut [u32], depth: usize)
    requires { (WORK ≤ length work.old) × (Stacked work.old depth) × (2 ≤ depth) }
    ensures { PoppedTwo work.old work.new depth }
{
    pop(work, depth);
    pop(work, depth - 1);
}
