// How the working list gets paths and nodes: a node made, copies at the parents and on the stack. What adds paths gives how many there are then.
ghost use Rattle.std.specs.Prelude.{◌≡◌, ◌++◌, ◌∷◌, [], ◌+◌, ◌-◌, ◌*◌, ◌≤◌, ◌<◌, length};
ghost use Rattle.words.specs.Words.{WORK};
ghost use Rattle.work_layout.specs.Layout.{ENTRIES};
ghost use Rattle.work_layout.specs.Rows.{link_at, parent_of, Tops};
ghost use Rattle.spec_search.specs.Search.{upward, most_visits};
ghost use Rattle.search_list.specs.Steps.{PathsOK, copies, stacked, Links, Nodes, Relisted, Visited};
ghost use Rattle.search_list.specs.State.{seen_of, node_bits, trails_of, node_at, place_at, count_at, MOST_PATHS};

use crate::Search;
use work_layout::{EntryIndex, parents};

// A visit by the path in `slot`: the next node has its bits and its position bit, and its entry is seen.
pub fn add_node(work: &mut [u32], slot: usize, nodes: usize)
    requires in_bounds { (WORK ≤ length work.old) × (Nodes work.old nodes) × (nodes < most_visits) × (slot < MOST_PATHS) }
    requires slot_bound { (node_at work.old slot ≤ nodes) × (place_at work.old slot < 2 * ENTRIES) }
    ensures { Visited work.old work.new slot nodes }
{
    let a = crate::node_of(work, slot);
    let p = crate::parent_of(work, slot);
    let l = crate::len_of(work, a as usize);
    let k = nodes + 1;
    work[work_layout::PREVS + k] = a;
    work[work_layout::NODES + k] = p.0;
    work[work_layout::LENS + k] = (l + 1) as u32;
    crate::mark_seen(work, p.entry());
}

// A path with the bits of the last node at parent i of entry e, unless that is seen.
fn add_copy(work: &mut [u32], e: EntryIndex, i: usize, paths: usize, nodes: usize) -> usize
    requires links { (Links work.old) × (Nodes work.old nodes) × (PathsOK work.old nodes paths) }
    requires e_bound { (e.0 < ENTRIES) × (i < count_at work.old e.0) × (paths < MOST_PATHS) }
    ensures { Relisted work.old work.new nodes result
        (trails_of work.old paths
        ++ upward (seen_of work.old nodes) (node_bits work.old nodes)
        (parent_of (link_at work.old e.0 i) ∷ [])) }
{
    let p = parents::parent_at(work, e, i);
    if crate::is_seen(work, p.entry()) {
        return paths;
    }
    crate::put_at_entry(work, paths, nodes as u32, p);
    paths + 1
}

impl Search {
    // A path with the bits of the last node at each unseen parent of entry e, which has `all`, from parent `first` on.
    pub fn add_copies(self, work: &mut [u32], e: EntryIndex, first: usize, all: usize) -> usize
        requires links { (Links work.old) × (Nodes work.old self.nodes) × (PathsOK work.old self.nodes self.paths) }
        requires e_bound { (e.0 < ENTRIES)
            × (first ≤ all)
            × (self.paths + (all - first) ≤ MOST_PATHS)
            × (all ≡ count_at work.old e.0) }
        ensures { Relisted work.old work.new self.nodes result
            (trails_of work.old self.paths ++ copies work.old self.nodes e.0 first) }
    {
        let mut paths = self.paths;
        for i in first..all {
            paths = add_copy(work, e, i, paths, self.nodes);
        }
        paths
    }

    // For an entry on the stack a path there, with the bits of the last node and a further 0.
    pub fn add_stacked(self, work: &mut [u32], e: EntryIndex) -> usize
        requires links { (Links work.old)
            × (Tops work.old self.depth)
            × (Nodes work.old self.nodes)
            × (PathsOK work.old self.nodes self.paths) }
        requires e_bound { (e.0 < ENTRIES) × (self.paths < MOST_PATHS) }
        ensures { Relisted work.old work.new self.nodes result
            (trails_of work.old self.paths ++ stacked work.old self.nodes e.0 self.depth) }
    {
        let Some(top) = crate::top_of(work, e) else {
            return self.paths;
        };
        let distance = self.depth - 1 - top;
        crate::put_on_stack(work, self.paths, self.nodes as u32, distance as u32, 1);
        self.paths + 1
    }
}
