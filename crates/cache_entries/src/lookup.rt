// The entry of a node in the tree cache, as tree_cache.rs has it: a pair's is mapped, an atom's is looked up by its bytes.
ghost use Rattle.std.specs.Prelude.{◌≡◌, true, ◌<◌};
ghost use Rattle.words.specs.Words.{at};
ghost use Rattle.allocator.specs.Handle.{node_of, is_atom};
ghost use Rattle.work_layout.specs.Layout.{PAIR_COUNT};
ghost use Rattle.cache_entries.specs.Meaning.{Names, Whole};
ghost use Rattle.cache_entries.specs.lookup.Effects.{PairEntry, AtomEntry, EntryOf};

use crate::table;
use crate::table::Key;
use allocator::NodePtr;
use work_layout::EntryIndex;

// The entry of pair i; entry 0 where it has none.
pub fn pair_entry(work: &[u32], i: usize) -> EntryIndex
    requires { (Whole work.now) × (i < at work.now PAIR_COUNT) }
    ensures { PairEntry work.now i result.0 }
{
    crate::map_of(work, i).unwrap_or(EntryIndex(0))
}

// The entry of an atom; entry 0 where it has none.
fn atom_entry(work: &[u32], node: NodePtr) -> EntryIndex
    requires { (Whole work.now) × (Names work.now (at work.now PAIR_COUNT) node.0) × (is_atom (node_of node.0) ≡ true) }
    ensures { AtomEntry work.now node.0 result.0 }
{
    let key = crate::atom_key(work, node);
    table::find_key(work, Key::Atom(key)).unwrap_or(EntryIndex(0))
}

// The entry of a node.
pub fn entry_of(work: &[u32], node: NodePtr) -> EntryIndex
    requires { (Whole work.now) × (Names work.now (at work.now PAIR_COUNT) node.0) }
    ensures { EntryOf work.now node.0 result.0 }
{
    if node.is_atom() {
        return atom_entry(work, node);
    }
    pair_entry(work, node.index() as usize)
}
