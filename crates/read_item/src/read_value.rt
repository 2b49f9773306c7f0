// de_br.rs: an atom or a reference, read and pushed.
ghost use Rattle.std.specs.Prelude.{◌≡◌, ◌+◌, ◌<◌, ◌≤◌, length};
ghost use Rattle.words.specs.Words.{WORK};
ghost use Rattle.read_store.specs.Layout.{PushedValue};
ghost use Rattle.read_item.specs.Whole.{Stands};
ghost use Rattle.read_item.specs.Values.{AtomRoom, AtomPushed, SteppedAtom, node_pushed, BeforePath, SteppedPath};
ghost use Rattle.atom.specs.Parse.{blob, blob_of, parse_at};

use crate::read_error::ReadError;
use crate::settle;
use crate::settle::{Item, Reader};
use allocator::NodePtr;
use atom_decode::Blob;
use read_path::Counts;
use read_store::reader_stacks;

// A node is pushed. What was read ends at `end`.
fn push_node(work: &mut [u32], r: Reader, node: NodePtr, end: usize) -> Reader
    requires { (WORK ≤ length work.old) × (r.values < 131072) × (r.ghosts ≤ 131072) }
    ensures { (PushedValue work.old work.new r.values node.0) × (result ≡ node_pushed r end) }
{
    reader_stacks::push_value(work, r.values, node);
    let mut next = r;
    next.position = end;
    next.values += 1;
    next.ghosts += 1;
    next
}

// The atom that was found is stored and pushed.
fn push_atom(
    input: &[u8],
    work: &mut [u32],
    atoms: &mut [u32],
    bytes: &mut [u8],
    r: Reader,
    found: Blob,
) -> Reader
    requires { AtomRoom work.old atoms.old bytes.old r (blob_of input.now (blob found.start found.end)) }
    ensures { AtomPushed work.old atoms.old bytes.old r
        (blob_of input.now (blob found.start found.end)) found.end work.new atoms.new
        bytes.new result }
{
    let atom = atom_decode::parse_atom_ptr(input, Ok(found));
    let a = read_store::new_atom(atoms, bytes, r.atoms, r.bytes, atom);
    let mut next = r;
    next.atoms = a.atoms;
    next.bytes = a.bytes;
    push_node(work, next, a.node, found.end)
}

// The atom that was found at the place is read.
pub fn atom_item(
    input: &[u8],
    work: &mut [u32],
    pairs: &mut [u32],
    atoms: &mut [u32],
    bytes: &mut [u8],
    r: Reader,
    found: Blob,
) -> Result<Item, ReadError>
    requires { (Stands input.now work.old pairs.old atoms.old bytes.old r) × (blob found.start found.end ≡ parse_at input.now r.position) }
    ensures { SteppedAtom input.now work.old pairs.old atoms.old
        bytes.old r work.new pairs.new atoms.new bytes.new result }
{
    let next = push_atom(input, work, atoms, bytes, r, found);
    settle::settle(input, work, pairs, next)
}

// The path that was found after a reference's mark is walked, and its node pushed.
pub fn path_item(
    input: &[u8],
    work: &mut [u32],
    pairs: &mut [u32],
    r: Reader,
    found: Blob,
) -> Result<Item, ReadError>
    requires { (BeforePath input.now work.old pairs.old r) × (blob found.start found.end ≡ parse_at input.now (r.position + 1)) }
    ensures { SteppedPath input.now work.old pairs.old r work.new pairs.new result }
{
    let path = atom_decode::parse_atom_ptr(input, Ok(found));
    let counts = Counts {
        listed: r.listed,
        pairs: r.pairs,
        ghosts: r.ghosts,
    };
    let led = read_path::traverse_path_with_vec(path, work, pairs, r.values, counts)?;
    let mut next = r;
    next.listed = led.counts.listed;
    next.pairs = led.counts.pairs;
    next.ghosts = led.counts.ghosts;
    let pushed = push_node(work, next, led.node, found.end);
    settle::settle(input, work, pairs, pushed)
}
