// A sentinel's parents in work, taken and placed at the end of a root's list.
ghost use Rattle.std.specs.Prelude.{◌≡◌, ℕ, ◌+◌, ◌*◌, ◌≤◌, ◌<◌, length};
ghost use Rattle.words.specs.Words.{at, WORK};
ghost use Rattle.work_layout.specs.Layout.{USED, ENTRIES, MAX_PARENTS};
ghost use Rattle.work_layout.specs.Rows.{link_at, moved_at, Sound};
ghost use Rattle.cache_entries.specs.table.Effects.{Taken, MovedLinks, Placed};
ghost use Rattle.cache_parents.specs.Lists.{Saved, Filled};

use work_layout::{EntryIndex, MAX_PARENTS, parents};

// Three loops move parents between two places. They stay three: a loop for any two places is no plainer, it takes both as closures with their laws.

// The first n parents of entry e go to MOVED.
fn save_parents(work: &mut [u32], e: EntryIndex, n: usize)
    requires { (WORK ≤ length work.old)
        × (e.0 < ENTRIES)
        × (n ≤ MAX_PARENTS)
        × ((i : ℕ) → i < n → link_at work.old e.0 i < 2 * ENTRIES) }
    ensures { Saved work.old work.new e.0 n }
{
    for i in 0..n {
        let p = parents::parent_at(work, e, i);
        parents::set_moved(work, i, p);
    }
}

// The parents of entry e, which has none then, go to MOVED. How many there are.
pub fn take_parents(work: &mut [u32], e: EntryIndex) -> usize
    requires { (Sound work.old) × (e.0 < at work.old USED) }
    ensures { Taken work.old work.new e.0 result }
{
    let n = parents::count_of(work, e);
    save_parents(work, e, n);
    work[work_layout::COUNTS + e.0 as usize] = 0;
    n
}

// The first parents of entry e are dropped; the n after them go to the front.
fn drop_parents(work: &mut [u32], e: EntryIndex, dropped: usize, n: usize)
    requires in_bounds { (WORK ≤ length work.old) × (e.0 < ENTRIES) × (dropped + n ≤ MAX_PARENTS) }
    requires by_index { (i : ℕ) → i < n → link_at work.old e.0 (dropped + i) < 2 * ENTRIES }
    ensures { Filled work.old work.new e.0 0 n (λ i. link_at work.old e.0 (dropped + i)) }
{
    for i in 0..n {
        let p = parents::parent_at(work, e, dropped + i);
        parents::set_parent(work, e, i, p);
    }
}

// The n parents in MOVED go behind the first `kept` of entry e.
fn append_moved(work: &mut [u32], e: EntryIndex, kept: usize, n: usize)
    requires { (WORK ≤ length work.old)
        × (e.0 < ENTRIES)
        × (kept + n ≤ MAX_PARENTS)
        × ((i : ℕ) → i < n → moved_at work.old i < 2 * ENTRIES) }
    ensures { Filled work.old work.new e.0 kept n (moved_at work.old) }
{
    for i in 0..n {
        let p = parents::moved_at(work, i);
        parents::set_parent(work, e, kept + i, p);
    }
}

// The `moved` parents in MOVED go to the end of those of entry e; beyond 100 the front ones are dropped.
pub fn place_parents(work: &mut [u32], e: EntryIndex, moved: usize)
    requires { (Sound work.old) × (e.0 < at work.old USED) × (moved ≤ MAX_PARENTS) × (MovedLinks work.old moved) }
    ensures { Placed work.old work.new e.0 moved }
{
    let n = parents::count_of(work, e);
    let dropped = (n + moved).saturating_sub(MAX_PARENTS);
    let kept = n - dropped;
    drop_parents(work, e, dropped, kept);
    append_moved(work, e, kept, moved);
    work[work_layout::COUNTS + e.0 as usize] = (kept + moved) as u32;
}
