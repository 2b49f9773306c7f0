// A reference into a session's output, as incremental.rs writes it: `fe` and the path's atom. `output` is the usable part of the output, of which
// `counts.size` bytes are used. A reference that does not fit whole leaves the output as it is (question 13).
ghost use Rattle.std.specs.Prelude.{◌≡◌, Bool, true, List, [], ◌∷◌, ◌++◌, ◌+◌, ◌/◌, ◌≤◌, length, set};
ghost use Rattle.std.proofs.Math.Option.{some};
ghost use Rattle.std.proofs.Math.Seq.{paste};
ghost use Rattle.words.specs.Words.{WORK};
ghost use Rattle.atom.specs.Prefix.{prefix, prefix_width};
ghost use Rattle.path.specs.Bytes.{path_bytes};
ghost use Rattle.spec_search.specs.PathBits.{Ends};
ghost use Rattle.search_list.specs.State.{Readable, path_at};
ghost use Rattle.spec_session.specs.Items.{reference_item};
ghost use Rattle.write_counts.specs.Counts.{Bounded};
ghost use Rattle.write_item.specs.Answers.{ItemPut};

use crate::OutputFull;
use atom_encode::write_prefix;
use write_counts::Counts;

// How many bits the path at a slot has.
fn path_bits(work: &[u32], slot: usize) -> usize
    requires { (WORK ≤ length work.now) × (Readable work.now slot) }
    ensures { (result ≡ length (path_at work.now slot)) × (result ≤ 8192) }
{
    search_list::size_of(work, slot)
}

// The width of the prefix of a path of so many bits, the first of which is set: below 8 of them it is one byte that stands for itself.
fn path_width(bits: usize) -> usize
    requires { bits ≤ 8192 }
    ensures { (result ≤ 5)
        × ((path : List Bool) → bits ≡ length (path ++ true ∷ [])
        → prefix_width (path_bytes (path ++ true ∷ [])) ≡ some result) }
{
    if bits < 8 {
        return 0;
    }
    atom::shortest_width(((bits + 7) / 8) as u64)
}

// The bytes of the path at a slot, from `start` on.
fn put_path(work: &[u32], slot: usize, output: &mut [u8], start: usize, count: usize)
    requires { (WORK ≤ length work.now)
        × (Readable work.now slot)
        × (count ≡ (length (path_at work.now slot) + 7) / 8)
        × (start + count ≤ length output.old) }
    ensures { output.new ≡ paste output.old start (path_bytes (path_at work.now slot)) count }
{
    let end = start + count;
    search_bytes::path_bytes(work, slot, &mut output[start..end]);
}

// A reference to the path at a slot, for which there is room: its mark, the prefix, and the path's bytes.
fn put_reference(
    work: &[u32],
    slot: usize,
    output: &mut [u8],
    size: usize,
    width: usize,
    count: usize,
)
    requires in_bounds { (WORK ≤ length work.now)
        × (Readable work.now slot)
        × (count ≡ (length (path_at work.now slot) + 7) / 8)
        × (count ≤ 1024) }
    requires width_bound { (width ≤ 5) × (size + (1 + (width + count)) ≤ length output.old) }
    ensures { output.new
        ≡ paste (paste (set output.old size 0xfe) (size + 1) (prefix width count) width) (size + 1 + width)
        (path_bytes (path_at work.now slot)) count }
{
    output[size] = atom::BACK_REFERENCE;
    write_prefix::write_prefix(output, size + 1, width, count as u64);
    put_path(work, slot, output, size + 1 + width, count);
}

// A reference to the path at a slot, whose first bit is set.
pub fn write_reference(
    work: &[u32],
    slot: usize,
    output: &mut [u8],
    counts: Counts,
) -> Result<Counts, OutputFull>
    requires { (WORK ≤ length work.now) × (Readable work.now slot) × (Ends (path_at work.now slot)) × (Bounded counts) }
    ensures { (path : List Bool) → path_at work.now slot ≡ path ++ true ∷ []
        → ItemPut output.old output.new counts (reference_item path) result }
{
    let size = counts.size;
    let bits = path_bits(work, slot);
    let width = path_width(bits);
    let count = (bits + 7) / 8;
    let total = 1 + (width + count);
    if !crate::fits(output.len(), size, total) {
        return Err(OutputFull);
    }
    put_reference(work, slot, output, size, width, count);
    Ok(counts.with_reference(size + total, width))
}
