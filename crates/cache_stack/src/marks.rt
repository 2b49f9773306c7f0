// The marks of the entries written of tree_cache.rs, in work.
ghost use Rattle.std.specs.Prelude.{◌≡◌, ◌≤◌, ◌<◌, length};
ghost use Rattle.words.specs.Words.{WORK};
ghost use Rattle.work_layout.specs.Layout.{WRITTEN, ENTRIES};
ghost use Rattle.cache_stack.specs.marks.Effects.{marked_at, Marked};

use work_layout::{EntryIndex, MOVED, WRITTEN};

// Whether entry e is marked written.
pub fn is_marked(work: &[u32], e: EntryIndex) -> bool
    requires { (WORK ≤ length work.now) × (e.0 < ENTRIES) }
    ensures { result ≡ marked_at work.now e.0 }
{
    bitset::is_visited(&work[WRITTEN..MOVED], e.0 as usize)
}

// Marks entry e written.
pub fn mark(work: &mut [u32], e: EntryIndex)
    requires { (WORK ≤ length work.old) × (e.0 < ENTRIES) }
    ensures { Marked work.old work.new e.0 }
{
    bitset::visit(&mut work[WRITTEN..MOVED], e.0 as usize);
}
