// The reader's store of allocator.rs: pairs and atoms in lent slices. There is no heap: a count beside a slice says how much of it is in use.
#![tactic(auto)]

pub mod join_values;
pub mod reader_stacks;

ghost use Rattle.std.specs.Prelude.{◌≡◌, [], ◌∷◌, ◌+◌, ◌*◌, ◌^◌, ◌≤◌, ◌<◌, length};
ghost use Rattle.std.proofs.Math.Seq.{paste};
ghost use Rattle.allocator.specs.Handle.{handle_of, pair};
ghost use Rattle.read_store.specs.Atoms.{ListedAppended, AtomStored};

use allocator::{NodePtr, fits_in_small_atom};
use words::slices;

// A pair is appended after the `used` ones that are there.
pub fn new_pair(pairs: &mut [u32], used: usize, left: NodePtr, right: NodePtr) -> NodePtr
    requires { (2 * used + 2 ≤ length pairs.old) × (used < 2 ^ 26) }
    ensures { (result.0 ≡ handle_of (pair used)) × (pairs.new ≡ paste pairs.old (2 * used) (left.0 ∷ right.0 ∷ []) 2) }
{
    pairs[2 * used] = left.0;
    pairs[2 * used + 1] = right.0;
    NodePtr::pair(used as u32)
}

// An atom's node, and how many listed atoms and atom bytes there are then.
#[derive(Clone, Copy, Debug, PartialEq, Eq)]
pub struct NewAtom {
    pub node: NodePtr,
    pub atoms: usize,
    pub bytes: usize,
}

// A listed atom is appended: its bytes, and where they start and end.
fn new_listed(atoms: &mut [u32], bytes: &mut [u8], used: usize, size: usize, blob: &[u8]) -> NewAtom
    requires { (2 * used + 2 ≤ length atoms.old)
        × (size + length blob.now ≤ length bytes.old)
        × (used < 2 ^ 26)
        × (size + length blob.now < 2 ^ 32) }
    ensures { ListedAppended atoms.old bytes.old used size blob.now atoms.new
        bytes.new result.node.0 result.atoms result.bytes }
{
    let end = size + blob.len();
    slices::copy_bytes(blob, bytes, size);
    atoms[2 * used] = size as u32;
    atoms[2 * used + 1] = end as u32;
    NewAtom {
        node: NodePtr::bytes(used as u32),
        atoms: used + 1,
        bytes: end,
    }
}

// The atom with these bytes: a small one is its handle alone, another one is listed.
pub fn new_atom(
    atoms: &mut [u32],
    bytes: &mut [u8],
    used: usize,
    size: usize,
    blob: &[u8],
) -> NewAtom
    requires { (2 * used + 2 ≤ length atoms.old)
        × (size + length blob.now ≤ length bytes.old)
        × (used < 2 ^ 26)
        × (size + length blob.now < 2 ^ 32) }
    ensures { AtomStored atoms.old bytes.old used size blob.now atoms.new
        bytes.new result.node.0 result.atoms result.bytes }
{
    match fits_in_small_atom::fits_in_small_atom(blob) {
        Some(value) => NewAtom {
            node: NodePtr::small_atom(value),
            atoms: used,
            bytes: size,
        },
        None => new_listed(atoms, bytes, used, size, blob),
    }
}
