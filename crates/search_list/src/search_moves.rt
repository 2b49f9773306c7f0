// How a step changes the working list: a path moved to a parent or to the stack, or dropped.
ghost use Rattle.std.specs.Prelude.{◌≡◌, ◌++◌, ◌+◌, ◌-◌, ◌≤◌, ◌<◌, length, set};
ghost use Rattle.words.specs.Words.{WORK};
ghost use Rattle.work_layout.specs.Layout.{ENTRIES};
ghost use Rattle.work_layout.specs.Rows.{link_at, Tops};
ghost use Rattle.spec_search.specs.Flat.{swap_remove};
ghost use Rattle.search_list.specs.Steps.{PathsOK, copies, stacked, Links, Nodes, Relisted, UnseenOf};
ghost use Rattle.search_list.specs.State.{node_bits, trail_of, trails_of, trail, count_at, MOST_PATHS};

use crate::{Cursor, Search};
use work_layout::parents::Parent;
use work_layout::{EntryIndex, parents};

// The first parent of an entry that is not seen: its place in the list, the parent, and how many the list has.
#[derive(Clone, Copy, Debug, PartialEq, Eq)]
pub struct Unseen {
    pub place: usize,
    pub parent: Parent,
    pub all: usize,
}

// The first parent of entry e that is not seen.
pub fn first_unseen(work: &[u32], e: EntryIndex) -> Option<Unseen>
    requires { (Links work.now) × (e.0 < ENTRIES) }
    ensures { UnseenOf work.now e.0 result }
{
    let all = parents::count_of(work, e);
    for i in 0..all {
        let p = parents::parent_at(work, e, i);
        if !crate::is_seen(work, p.entry()) {
            return Some(Unseen {
                place: i,
                parent: p,
                all,
            });
        }
    }
    None
}

// The last path takes the slot.
pub fn drop_path(work: &mut [u32], slot: usize, last: usize, nodes: usize)
    requires { (WORK ≤ length work.old)
        × (Nodes work.old nodes)
        × (PathsOK work.old nodes (last + 1))
        × (slot < last + 1)
        × (last < MOST_PATHS) }
    ensures { Relisted work.old work.new nodes last
        (swap_remove (trails_of work.old (last + 1)) slot (trail_of work.old slot)) }
{
    let a = crate::node_of(work, last);
    let v = crate::place_of(work, last);
    let x = crate::extra_of(work, last);
    crate::put_path(work, slot, a, v, x);
}

// The moves of the path at the cursor. Each gives how many paths there are then.
impl Cursor {
    // The path goes to parent k of entry e, each later unseen parent gets a copy, and then the stack.
    pub fn go_up(self, work: &mut [u32], e: EntryIndex, k: Unseen) -> usize
        requires links { (Links work.old)
            × (Tops work.old self.search.depth)
            × (Nodes work.old self.search.nodes)
            × (PathsOK work.old self.search.nodes self.search.paths) }
        requires slot_lt_paths { (self.slot < self.search.paths)
            × (e.0 < ENTRIES)
            × (k.place < k.all)
            × (self.search.paths + (k.all - k.place) ≤ MOST_PATHS)
            × (k.all ≡ count_at work.old e.0)
            × (k.parent.0 ≡ link_at work.old e.0 k.place) }
        ensures { Relisted work.old work.new self.search.nodes result
            (set (trails_of work.old self.search.paths) self.slot
            (trail 0 (node_bits work.old self.search.nodes) (link_at work.old e.0 k.place))
            ++ (copies work.old self.search.nodes e.0 (k.place + 1) ++ stacked work.old self.search.nodes e.0 self.search.depth)) }
    {
        let s = self.search;
        crate::put_at_entry(work, self.slot, s.nodes as u32, k.parent);
        let paths = s.add_copies(work, e, k.place + 1, k.all);
        let more = Search { paths, ..s };
        more.add_stacked(work, e)
    }

    // The path is dropped, and the stack gets a copy.
    pub fn go_off(self, work: &mut [u32], e: EntryIndex) -> usize
        requires links { (Links work.old)
            × (Tops work.old self.search.depth)
            × (Nodes work.old self.search.nodes)
            × (PathsOK work.old self.search.nodes self.search.paths) }
        requires slot_lt_paths { (self.slot < self.search.paths) × (e.0 < ENTRIES) × (self.search.paths < MOST_PATHS) }
        ensures { Relisted work.old work.new self.search.nodes result
            (swap_remove (trails_of work.old self.search.paths ++ stacked work.old self.search.nodes e.0 self.search.depth) self.slot
            (trail_of work.old self.slot)) }
    {
        let last = self.search.add_stacked(work, e) - 1;
        drop_path(work, self.slot, last, self.search.nodes);
        last
    }
}
