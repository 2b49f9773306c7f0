// tree_cache.rs: the entry of an atom or a pair, found or made.
ghost use Rattle.std.specs.Prelude.{◌≡◌, true, ◌<◌};
ghost use Rattle.words.specs.Words.{at};
ghost use Rattle.allocator.specs.Handle.{node_of, is_atom};
ghost use Rattle.work_layout.specs.Layout.{PAIR_COUNT, USED, ENTRIES};
ghost use Rattle.work_layout.specs.Rows.{Sound};
ghost use Rattle.cache_entries.specs.table.Effects.{first_word, second_word, Interned};
ghost use Rattle.cache_entries.specs.Meaning.{Names, Whole};
ghost use Rattle.cache_entries.specs.Effects.{atom_action, pair_action, Made};

use allocator::NodePtr;
use cache_entries::table;
use cache_entries::table::{Key, insert_entry};
use work_layout::EntryIndex;

// The entry with this key, found or made.
fn find_or_add(work: &mut [u32], key: Key, len: u64) -> EntryIndex
    requires { (Sound work.old) × (at work.old USED < ENTRIES) }
    ensures { Interned work.old work.new (first_word key) (second_word key) len result.0 }
{
    match table::find_key(work, key) {
        Some(e) => e,
        None => insert_entry::insert(work, key, len),
    }
}

// The entry of an atom, found or made.
pub fn enter_atom(work: &mut [u32], h: NodePtr) -> EntryIndex
    requires whole { (Whole work.old) × (Names work.old (at work.old PAIR_COUNT) h.0) × (is_atom (node_of h.0) ≡ true) }
    requires work_bound { at work.old USED < ENTRIES }
    ensures { Made (atom_action h.0) work.old work.new result.0 }
{
    let key = cache_entries::atom_key(work, h);
    let len = cache_entries::atom_length(work, h);
    find_or_add(work, Key::Atom(key), len)
}

// The entry of a pair whose sides have the entries l and r, found or made.
pub fn enter_pair(work: &mut [u32], l: EntryIndex, r: EntryIndex) -> EntryIndex
    requires { (Whole work.old) × (l.0 < at work.old USED) × (r.0 < at work.old USED) × (at work.old USED < ENTRIES) }
    ensures { Made (pair_action l.0 r.0) work.old work.new result.0 }
{
    let a = table::length_of(work, l);
    let b = table::length_of(work, r);
    let len = cache_entries::pair_length(a, b);
    find_or_add(work, Key::Pair(l, r), len)
}
