// The list that the reader's stack of values is to a path, made and kept: a part of `traverse_path_with_vec` of de_br.rs.
ghost use Rattle.std.specs.Prelude.{◌≡◌, ◌≤◌, min, length};
ghost use Rattle.words.specs.Words.{WORK};
ghost use Rattle.spec_reading.specs.Store.{Store, list_of};
ghost use Rattle.read_store.specs.Layout.{values_of};
ghost use Rattle.read_path.specs.Lists.{HaveLists, AddRoom, Adds, ListRoom, Lists};

use allocator::NodePtr;
use read_store::reader_stacks::VALUES;

// How many of the lowest values are known to have a list, and how many pairs and ghost pairs there are.
#[derive(Clone, Copy, Debug, PartialEq, Eq)]
pub struct Counts {
    pub listed: usize,
    pub pairs: usize,
    pub ghosts: usize,
}

// A list of the stack, or a node of the store, and the counts then.
#[derive(Clone, Copy, Debug, PartialEq, Eq)]
pub struct Built {
    pub node: NodePtr,
    pub counts: Counts,
}

// How many of the lowest `listed` values are among the lowest `values`.
pub fn listed_among(listed: usize, values: usize) -> usize
    ensures { result ≡ min listed values }
{
    listed.min(values)
}

// The list that the lowest `count` values have: that of the topmost of them.
fn list_at(work: &[u32], count: usize) -> NodePtr
    requires { (WORK ≤ length work.now) × (HaveLists work.now count 131072) }
    ensures { (s : Store) → result.0 ≡ (list_of (values_of work.now count) s).node }
{
    if count == 0 {
        return NodePtr::NIL;
    }
    NodePtr(work[VALUES + 2 * (count - 1) + 1] - 1)
}

// The list of the lowest `count` values. Some of the lowest have theirs; from there up, a list that a value has is taken, and one
// that is made is kept with its value.
pub fn build_list(work: &mut [u32], pairs: &mut [u32], count: usize, counts: Counts) -> Built
    requires { ListRoom work.old pairs.old count counts.listed counts.pairs counts.ghosts }
    ensures { Lists work.old pairs.old count counts.listed counts.pairs counts.ghosts
        work.new pairs.new result }
{
    let listed = listed_among(counts.listed, count);
    let mut b = Built {
        node: list_at(work, listed),
        counts,
    };
    for i in listed..count {
        b = add_value(work, pairs, i, b);
    }
    b
}

// The list of the lowest i + 1 values from that of the lowest i.
fn add_value(work: &mut [u32], pairs: &mut [u32], i: usize, below: Built) -> Built
    requires { AddRoom work.old pairs.old i below }
    ensures { Adds work.old pairs.old i below work.new pairs.new result }
{
    let mut counts = below.counts;
    counts.listed = i + 1;
    let list = work[VALUES + 2 * i + 1];
    if list != 0 {
        return Built {
            node: NodePtr(list - 1),
            counts,
        };
    }
    let value = NodePtr(work[VALUES + 2 * i]);
    let node = read_store::new_pair(pairs, counts.pairs, value, below.node);
    work[VALUES + 2 * i + 1] = node.0 + 1;
    counts.pairs += 1;
    counts.ghosts -= 1;
    Built { node, counts }
}
