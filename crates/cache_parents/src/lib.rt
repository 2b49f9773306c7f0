// The parents of the entries of the tree cache, in work: one added.
#![tactic(auto)]

pub mod moved_parents;

ghost use Rattle.std.specs.Prelude.{◌<◌};
ghost use Rattle.words.specs.Words.{at};
ghost use Rattle.work_layout.specs.Layout.{USED};
ghost use Rattle.work_layout.specs.Rows.{Sound};
ghost use Rattle.cache_entries.specs.table.Effects.{ParentAdded};

use work_layout::parents::Parent;
use work_layout::{EntryIndex, MAX_PARENTS, parents};

// Entry e gets a parent, to whose left or right it stands. The first 100 are kept; a later one overwrites one of them.
pub fn add_parent(work: &mut [u32], e: EntryIndex, parent: EntryIndex, right: bool)
    requires { (Sound work.old) × (e.0 < at work.old USED) × (parent.0 < at work.old USED) }
    ensures { ParentAdded work.old work.new e.0 parent.0 right }
{
    let n = parents::count_of(work, e);
    let link = Parent::new(parent, right);
    if n < MAX_PARENTS {
        parents::set_parent(work, e, n, link);
        work[work_layout::COUNTS + e.0 as usize] = (n + 1) as u32;
    } else {
        let slot = (parent.0 + u32::from(right)) as usize % MAX_PARENTS;
        parents::set_parent(work, e, slot, link);
    }
}
