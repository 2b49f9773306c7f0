// find_path of tree_cache.rs with its exceptions: the length of an entry, and the path that is written for a node, if there is one.
#![tactic(auto)]

mod find_path;

ghost use Rattle.std.specs.Prelude.{◌≡◌, false, ℕ, ◌≤◌, ◌<◌, eqb, length};
ghost use Rattle.words.specs.Words.{at, WORK};
ghost use Rattle.allocator.specs.Handle.{nil, handle_of};
ghost use Rattle.work_layout.specs.Layout.{USED, ENTRIES};
ghost use Rattle.work_layout.specs.Rows.{all_counts};
ghost use Rattle.cache_stack.specs.Effects.{Stacked};
ghost use Rattle.cache_entries.specs.Meaning.{Whole};
ghost use Rattle.search_find.specs.Effects.{LengthOf, FindsIn};

use allocator::NodePtr;
use cache_entries::table;
use cache_stack::marks;
use path::Measure;
use work_layout::EntryIndex;

// How many entries there are.
fn used_of(work: &[u32]) -> u32
    requires { WORK ≤ length work.now }
    ensures { result ≡ at work.now USED }
{
    work[work_layout::USED]
}

// The length of entry e, and 0 where there is no such entry.
pub fn length_at(work: &[u32], e: EntryIndex) -> u64
    requires { Whole work.now }
    ensures { LengthOf work.now e.0 result }
{
    if e.0 >= used_of(work) {
        return 0;
    }
    table::length_of(work, e)
}

// The slot of the path that is written for a node of entry e that is not nil, over a stack of `depth` entries: none for an entry that is not marked
// written, and for a short one.
fn find_marked(work: &mut [u32], e: EntryIndex, depth: usize, measure: Measure) -> Option<usize>
    requires { (Whole work.old) × (Stacked work.old depth) × (all_counts work.old ENTRIES ≤ 2048) × (e.0 < ENTRIES) }
    ensures { (h : ℕ) → eqb h (handle_of nil) ≡ false → FindsIn measure work.old work.new depth h e.0 result }
{
    if !marks::is_marked(work, e) {
        return None;
    }
    let len = length_at(work, e);
    if len < cache_stack::MIN_SERIALIZED_LENGTH {
        return None;
    }
    find_path::find_path(work, e, len, depth, measure)
}

// The slot of the path that is written for a node of entry e, over a stack of `depth` entries: none for nil, for an entry that is not marked written,
// and for a short one.
// The search has two callers here, so that it stays a function of its own: its loop needs the registers.
pub fn find(
    work: &mut [u32],
    node: NodePtr,
    e: EntryIndex,
    depth: usize,
    measure: Measure,
) -> Option<usize>
    requires { (Whole work.old) × (Stacked work.old depth) × (all_counts work.old ENTRIES ≤ 2048) × (e.0 < ENTRIES) }
    ensures { FindsIn measure work.old work.new depth node.0 e.0 result }
{
    if node.is_pair() {
        return find_marked(work, e, depth, measure);
    }
    if node.same(NodePtr::NIL) {
        return None;
    }
    find_marked(work, e, depth, measure)
}
