// The words of a search: the paths under way, the nodes that hold their bits, the entries seen. Each visit makes one node: the node before it, the
// entry visited with the position bit, and how many bits that makes. A path is three words: its node, its place, and its bits after the node's.
#![tactic(auto)]

pub mod search_copies;
pub mod search_moves;

ghost use Rattle.std.specs.Prelude.{◌≡◌, ◌+◌, ◌/◌, ◌≤◌, ◌<◌, length, MatchOption};
ghost use Rattle.spec_search.specs.Search.{most_visits};
ghost use Rattle.words.specs.Words.{at, WORK};
ghost use Rattle.work_layout.specs.Layout.{ENTRIES, TOPS, LENS};
ghost use Rattle.search_list.specs.State.{node_at, place_at, extra_at, seen_at, MOST_PATHS};
ghost use Rattle.search_list.specs.Steps.{Stored, Marked};

use std::ops::ControlFlow;
use work_layout::parents::Parent;
use work_layout::{EntryIndex, PREVS, SEEN};

// A search under way: how many paths there are, how many nodes, and how many entries on the stack.
#[derive(Clone, Copy, Debug, PartialEq, Eq)]
pub struct Search {
    pub paths: usize,
    pub nodes: usize,
    pub depth: usize,
}

// A pass under way: the slot of the path that is next, and the search.
#[derive(Clone, Copy, Debug, PartialEq, Eq)]
pub struct Cursor {
    pub slot: usize,
    pub search: Search,
}

// After a turn: the pass goes on, or the search ends, with the slot of the path that is its result, or with none at visit 1,025.
pub type Turned = ControlFlow<Option<usize>, Cursor>;

// The highest place of entry e on the stack. Its word is one more, or 0 where there is none.
pub fn top_of(work: &[u32], e: EntryIndex) -> Option<usize>
    requires { (WORK ≤ length work.now) × (e.0 < ENTRIES) }
    ensures { MatchOption result (at work.now (TOPS + e.0) ≡ 0) (λ top. at work.now (TOPS + e.0) ≡ top + 1) }
{
    (work[work_layout::TOPS + e.0 as usize] as usize).checked_sub(1)
}

// The node whose bits path i has. A number of a path stays a usize, here and below: each turn makes the next one of it, and a type with its bound would be made
// anew there with the same proof.
pub fn node_of(work: &[u32], i: usize) -> u32
    requires { (WORK ≤ length work.now) × (i < MOST_PATHS) }
    ensures { result ≡ node_at work.now i }
{
    work[work_layout::PATHS + 3 * i]
}

// Where path i is, as it stands in work: what `parent_of` or what `distance_of` gives.
fn place_of(work: &[u32], i: usize) -> u32
    requires { (WORK ≤ length work.now) × (i < MOST_PATHS) }
    ensures { result ≡ place_at work.now i }
{
    work[work_layout::PATHS + 3 * i + 1]
}

// Where path i is, at an entry: the entry, and the position bit that it takes there.
pub fn parent_of(work: &[u32], i: usize) -> Parent
    requires { (WORK ≤ length work.now) × (i < MOST_PATHS) }
    ensures { result.0 ≡ place_at work.now i }
{
    Parent(place_of(work, i))
}

// The entry that path i is at.
pub fn entry_of(work: &[u32], i: usize) -> EntryIndex
    requires { (WORK ≤ length work.now) × (i < MOST_PATHS) }
    ensures { result.0 ≡ place_at work.now i / 2 }
{
    let p = parent_of(work, i);
    p.entry()
}

// Where path i is, on the stack: the distance from the top.
pub fn distance_of(work: &[u32], i: usize) -> u32
    requires { (WORK ≤ length work.now) × (i < MOST_PATHS) }
    ensures { result ≡ place_at work.now i }
{
    place_of(work, i)
}

// 0 where path i is at an entry; on the stack, how many bits it has after its node's: a 0, and then each a 1.
// No Option: where it is 0 it is the count of those bits too, and so `size_of` and the path's bytes take it.
pub fn extra_of(work: &[u32], i: usize) -> u32
    requires { (WORK ≤ length work.now) × (i < MOST_PATHS) }
    ensures { result ≡ extra_at work.now i }
{
    work[work_layout::PATHS + 3 * i + 2]
}

// How many bits node k has.
pub fn len_of(work: &[u32], k: usize) -> usize
    requires { (WORK ≤ length work.now) × (k ≤ most_visits) }
    ensures { result ≡ at work.now (LENS + k) }
{
    work[work_layout::LENS + k] as usize
}

// How many bits path i has.
pub fn size_of(work: &[u32], i: usize) -> usize
    requires { (WORK ≤ length work.now) × (i < MOST_PATHS) × (node_at work.now i ≤ most_visits) }
    ensures { result ≡ at work.now (LENS + node_at work.now i) + extra_at work.now i }
{
    len_of(work, node_of(work, i) as usize) + extra_of(work, i) as usize
}

// Whether entry e is seen.
pub fn is_seen(work: &[u32], e: EntryIndex) -> bool
    requires { (WORK ≤ length work.now) × (e.0 < ENTRIES) }
    ensures { result ≡ seen_at work.now e.0 }
{
    // A local: with a literal there the proof takes seconds.
    let from = SEEN;
    bitset::is_visited(&work[from..PREVS], e.0 as usize)
}

// Entry e is seen.
pub fn mark_seen(work: &mut [u32], e: EntryIndex)
    requires { (WORK ≤ length work.old) × (e.0 < ENTRIES) }
    ensures { Marked work.old work.new e.0 }
{
    bitset::visit(&mut work[SEEN..PREVS], e.0 as usize);
}

// Path i has the bits of node a, is at place v, and has x bits after the node's.
fn put_path(work: &mut [u32], i: usize, a: u32, v: u32, x: u32)
    requires { (WORK ≤ length work.old) × (i < MOST_PATHS) }
    ensures { Stored work.old work.new i a v x }
{
    work[work_layout::PATHS + 3 * i] = a;
    work[work_layout::PATHS + 3 * i + 1] = v;
    work[work_layout::PATHS + 3 * i + 2] = x;
}

// Path i has the bits of node a, and is at an entry.
pub fn put_at_entry(work: &mut [u32], i: usize, a: u32, p: Parent)
    requires { (WORK ≤ length work.old) × (i < MOST_PATHS) }
    ensures { Stored work.old work.new i a p.0 0 }
{
    put_path(work, i, a, p.0, 0);
}

// Path i has the bits of node a and x more, and is on the stack, at this distance from the top.
pub fn put_on_stack(work: &mut [u32], i: usize, a: u32, distance: u32, x: u32)
    requires { (WORK ≤ length work.old) × (i < MOST_PATHS) }
    ensures { Stored work.old work.new i a distance x }
{
    put_path(work, i, a, distance, x);
}
