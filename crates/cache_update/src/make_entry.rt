// tree_cache.rs: the entry of a pair, found or made, becomes a parent of its sides.
ghost use Rattle.std.specs.Prelude.{◌≡◌, ◌+◌, ◌<◌};
ghost use Rattle.words.specs.Words.{at};
ghost use Rattle.work_layout.specs.Layout.{PAIR_COUNT, MAPS, USED, ENTRIES};
ghost use Rattle.cache_entries.specs.Meaning.{Whole};
ghost use Rattle.cache_entries.specs.Effects.{Joined};

use crate::enter_node;
use work_layout::EntryIndex;

// Pair i, which has no entry yet, whose sides have the entries l and r: its entry becomes a parent of both, and is mapped.
pub fn join(work: &mut [u32], i: usize, l: EntryIndex, r: EntryIndex) -> EntryIndex
    requires whole { (Whole work.old) × (i < at work.old PAIR_COUNT) × (at work.old (MAPS + i) ≡ 0) }
    requires l_bound { (l.0 < at work.old USED) × (r.0 < at work.old USED) × (at work.old USED < ENTRIES) }
    ensures { Joined work.old work.new i l.0 r.0 result.0 }
{
    let e = enter_node::enter_pair(work, l, r);
    cache_parents::add_parent(work, l, e, false);
    cache_parents::add_parent(work, r, e, true);
    work[work_layout::MAPS + i] = e.0 + 1;
    e
}
