// update of tree_cache.rs, over the entries in work: the trees of the file entered.
ghost use Rattle.words.specs.Words.{at};
ghost use Rattle.work_layout.specs.Layout.{PAIR_COUNT};
ghost use Rattle.cache_entries.specs.Meaning.{Names, Whole};
ghost use Rattle.cache_entries.specs.Effects.{Entered, Room};

use crate::{enter_node, make_entry, meet_sentinel};
use allocator::NodePtr;
use work_layout::EntryIndex;

// The entry of the tree of handle h, made where it is missing: children first, left before right.
pub fn enter(work: &mut [u32], h: NodePtr) -> EntryIndex
    requires { (Whole work.old) × (Names work.old (at work.old PAIR_COUNT) h.0) × (Room work.old h.0) }
    ensures { Entered work.old work.new h.0 result.0 }
{
    if cache_entries::is_sentinel(work, h) {
        return meet_sentinel::meet_sentinel(work);
    }
    if h.is_atom() {
        return enter_node::enter_atom(work, h);
    }
    let i = h.index() as usize;
    if let Some(e) = cache_entries::map_of(work, i) {
        return e;
    }
    let a = cache_entries::left_of(work, i);
    let b = cache_entries::right_of(work, i);
    let l = enter(work, a);
    let r = enter(work, b);
    make_entry::join(work, i, l, r)
}
