// The words of the tree cache: pairs and their entries, the keys and lengths of atoms, and the length of a pair.
#![tactic(auto)]

pub mod lookup;
pub mod table;

ghost use Rattle.std.specs.Prelude.{◌≡◌, true, eqb, ◌+◌, ◌*◌, ◌^◌, ◌≤◌, ◌<◌, length};
ghost use Rattle.words.specs.Words.{at, WORK};
ghost use Rattle.atom.specs.Write.{serialized_length};
ghost use Rattle.allocator.specs.Handle.{node_of, is_atom};
ghost use Rattle.allocator.specs.SmallAtom.{small_bytes};
ghost use Rattle.spec_session.specs.Cache.{pair_length};
ghost use Rattle.work_layout.specs.Layout.{PAIRS, FIRST, ATOM_LENGTHS, PAIR_COUNT, SENTINEL, MAPS, SENTINEL_ENTRY};
ghost use Rattle.cache_entries.specs.Meaning.{entry_or_none, Names, Whole};
ghost use Rattle.cache_entries.specs.Effects.{is_listed, Stands, Measured};
ghost use Rattle.cache_entries.specs.table.Effects.{option_of};

use allocator::{NodePtr, ObjectType, small_atom};
use work_layout::EntryIndex;

// The entry of pair i, if it has one. A pair's number stays a usize, as an atom's: it is the index of a handle, and a type with its bound would be made of it
// anew at each call, with the same proof.
pub fn map_of(work: &[u32], i: usize) -> Option<EntryIndex>
    requires { (WORK ≤ length work.now) × (i < 1024) }
    ensures { option_of result ≡ entry_or_none (at work.now (MAPS + i)) }
{
    table::found_by(work[work_layout::MAPS + i])
}

// The sentinel's latest entry, if it has one.
pub fn sentinel_entry(work: &[u32]) -> Option<EntryIndex>
    requires { WORK ≤ length work.now }
    ensures { option_of result ≡ entry_or_none (at work.now SENTINEL_ENTRY) }
{
    table::found_by(work[work_layout::SENTINEL_ENTRY])
}

// The left handle of pair i. This and the next stay two: a name for each side is plainer than one with a constant for the side.
pub fn left_of(work: &[u32], i: usize) -> NodePtr
    requires { (WORK ≤ length work.now) × (i < 1024) }
    ensures { result.0 ≡ at work.now (PAIRS + 2 * i) }
{
    NodePtr(work[work_layout::PAIRS + 2 * i])
}

// The right handle of pair i.
pub fn right_of(work: &[u32], i: usize) -> NodePtr
    requires { (WORK ≤ length work.now) × (i < 1024) }
    ensures { result.0 ≡ at work.now (PAIRS + 2 * i + 1) }
{
    NodePtr(work[work_layout::PAIRS + 2 * i + 1])
}

// Whether the handle is the sentinel's.
pub fn is_sentinel(work: &[u32], h: NodePtr) -> bool
    requires { WORK ≤ length work.now }
    ensures { result ≡ eqb (at work.now SENTINEL) h.0 }
{
    work[work_layout::SENTINEL] == h.0
}

// Whether the handle names a listed atom.
pub fn is_listed(h: NodePtr) -> bool
    ensures { result ≡ is_listed (node_of h.0) }
{
    h.object_type() == ObjectType::Bytes
}

// The first listed atom with the bytes of listed atom i.
fn first_of(work: &[u32], i: usize) -> u32
    requires { (WORK ≤ length work.now) × (i < 1024) }
    ensures { result ≡ at work.now (FIRST + i) }
{
    work[work_layout::FIRST + i]
}

// The handle of an atom that stands for all atoms with the same bytes.
pub fn atom_key(work: &[u32], h: NodePtr) -> NodePtr
    requires { (Whole work.now) × (Names work.now (at work.now PAIR_COUNT) h.0) × (is_atom (node_of h.0) ≡ true) }
    ensures { Stands work.now h.0 result.0 }
{
    if is_listed(h) {
        let first = first_of(work, h.index() as usize);
        return NodePtr::bytes(first);
    }
    h
}

// The serialized length of a small atom.
fn small_length(value: u32) -> u64
    requires { value < 2 ^ 26 }
    ensures { result ≡ serialized_length (small_bytes value) }
{
    if value < 128 {
        return 1;
    }
    small_atom::len_for_value(value) as u64 + 1
}

// The serialized length of listed atom i.
fn listed_length(work: &[u32], i: usize) -> u64
    requires { (WORK ≤ length work.now) × (i < 1024) }
    ensures { result ≡ at work.now (ATOM_LENGTHS + i) }
{
    u64::from(work[work_layout::ATOM_LENGTHS + i])
}

// The serialized length of an atom.
pub fn atom_length(work: &[u32], h: NodePtr) -> u64
    requires { (Whole work.now) × (Names work.now (at work.now PAIR_COUNT) h.0) × (is_atom (node_of h.0) ≡ true) }
    ensures { Measured work.now h.0 result }
{
    if is_listed(h) {
        return listed_length(work, h.index() as usize);
    }
    small_length(h.index())
}

// The length of a pair: 0 above the sentinel; sums stop at 2^64 - 1.
pub fn pair_length(a: u64, b: u64) -> u64
    ensures { result ≡ pair_length a b }
{
    if a == 0 || b == 0 {
        return 0;
    }
    a.saturating_add(b).saturating_add(1)
}
