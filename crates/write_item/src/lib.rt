// One item of a session's output, as incremental.rs writes it: `ff` or an atom. `output` is the usable part of the output, of which `counts.size` bytes
// are used. An item that does not fit whole leaves the output as it is (question 13).
// Output and counts stand side by side: the one is lent anew for each step, and the other is a value that a session keeps.
#![tactic(auto)]

pub mod write_reference;

ghost use Rattle.std.specs.Prelude.{◌≡◌, ◌+◌, ◌^◌, ◌<◌, leb, length};
ghost use Rattle.allocator.specs.SmallAtom.{small_bytes};
ghost use Rattle.spec_session.specs.Items.{cons_item, atom_item};
ghost use Rattle.write_counts.specs.Counts.{Bounded};
ghost use Rattle.write_item.specs.Answers.{ItemPut};

use allocator::small_atom;
use atom_encode::write_atom;
use write_counts::Counts;

// The output has no room for the whole item.
#[derive(Clone, Copy, Debug, PartialEq, Eq)]
pub struct OutputFull;

// Whether `count` bytes from `size` on lie within `room`.
pub fn fits(room: usize, size: usize, count: usize) -> bool
    ensures { result ≡ leb (size + count) room }
{
    size.checked_add(count).is_some_and(|end| end <= room)
}

// A pair's mark; what is counted with it.
pub fn write_cons(output: &mut [u8], counts: Counts) -> Result<Counts, OutputFull>
    ensures { ItemPut output.old output.new counts cons_item result }
{
    let size = counts.size;
    if !fits(output.len(), size, 1) {
        return Err(OutputFull);
    }
    output[size] = atom::CONS_BOX_MARKER;
    Ok(counts.with_cons(size + 1))
}

// An atom of the file, which is a part of the file.
pub fn write_listed(output: &mut [u8], counts: Counts, blob: &[u8]) -> Result<Counts, OutputFull>
    requires { (Bounded counts) × (length blob.now < 2 ^ 34) }
    ensures { ItemPut output.old output.new counts (atom_item blob.now) result }
{
    // It is never too long: a prefix holds the size.
    let written = write_atom::write_atom(output, counts.size, blob).map_err(|_| OutputFull)?;
    Ok(counts.with_atom(written.next, written.width))
}

// A small atom, which has no bytes in the file.
pub fn write_small(output: &mut [u8], counts: Counts, value: u32) -> Result<Counts, OutputFull>
    requires { (Bounded counts) × (value < 2 ^ 26) }
    ensures { ItemPut output.old output.new counts (atom_item (small_bytes value)) result }
{
    write_listed(output, counts, small_atom::small_atom_bytes(value).as_ref())
}
