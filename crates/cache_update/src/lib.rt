// update of tree_cache.rs, over the entries in work: a tree entered, and the present sentinel entry's parents moved to its root.
#![tactic(auto)]

mod enter_node;
mod enter_tree;
mod make_entry;
mod meet_sentinel;

ghost use Rattle.std.specs.Prelude.{◌+◌, ◌*◌, ◌<◌};
ghost use Rattle.words.specs.Words.{at};
ghost use Rattle.work_layout.specs.Layout.{PAIR_COUNT, USED, ENTRIES};
ghost use Rattle.cache_entries.specs.Meaning.{Names, Whole, unmapped};
ghost use Rattle.cache_entries.specs.Effects.{Cleared, Updated};

use allocator::NodePtr;
use cache_parents::moved_parents;

// The parents of the sentinel's present entry go to MOVED. How many there are; none where the sentinel was never met.
fn take_sentinel(work: &mut [u32]) -> usize
    requires { Whole work.old }
    ensures { Cleared work.old work.new result }
{
    match cache_entries::sentinel_entry(work) {
        Some(e) => moved_parents::take_parents(work, e),
        None => 0,
    }
}

// The cache after the tree of handle root is added: the present sentinel entry's parents move to its root.
pub fn update(work: &mut [u32], root: NodePtr)
    requires whole { (Whole work.old) × (Names work.old (at work.old PAIR_COUNT) root.0) }
    requires work_bound { at work.old USED + 2 * unmapped work.old (at work.old PAIR_COUNT) < ENTRIES }
    ensures { Updated work.old work.new root.0 }
{
    let n = take_sentinel(work);
    let e = enter_tree::enter(work, root);
    moved_parents::place_parents(work, e, n);
}
