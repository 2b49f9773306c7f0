// The ops whose payload is a run of bits, or of operations on a set of bits.
ghost use Rattle.std.specs.Prelude.{◌*◌, ◌≤◌, ◌<◌, length};
ghost use Rattle.path_builder.specs.Builder.{Sound};

use crate::refusal::Refusal;
use path_builder::{ChildPos, PathBuilder};
use std::io;
use std::io::Write;

// The most bits of a path, and the bytes that hold as many.
const MAX_BITS: usize = 5120;

const MAX_BYTES: usize = 640;

fn child_pos(bit: u8) -> ChildPos {
    if bit == 0 {
        ChildPos::Left
    } else {
        ChildPos::Right
    }
}

// The path with these bits, pushed in this order.
fn push_all(store: &mut [u8], bits: &[u8]) -> PathBuilder
    requires { (length bits.now ≤ 5120) × (length bits.now ≤ 8 * length store.old) }
    ensures { Sound store.new result }
{
    let mut builder = PathBuilder::new();
    for bit in bits {
        builder = builder.push(store, child_pos(*bit));
    }
    builder
}

// `len`, `serialized_length` and the bytes of `done`.
fn print_path<W: Write>(out: &mut W, store: &mut [u8], builder: PathBuilder) -> io::Result<()>
    requires { Sound store.old builder }
{
    write!(
        out,
        "{} {} ",
        builder.len(),
        builder.serialized_length(store)
    )?;
    let n = builder.done(store);
    text::hex(out, &store[..n])
}

// `b`: the path with these bits; 0 is a step to the left, any other byte one to the right.
pub fn path_of_bits<W: Write>(out: &mut W, bits: &[u8]) -> Result<(), Refusal> {
    if MAX_BITS < bits.len() {
        return Err(Refusal::BadRecord);
    }
    let mut store = [0u8; MAX_BYTES];
    let builder = push_all(&mut store, bits);
    print_path(out, &mut store, builder)?;
    Ok(())
}

// One operation on the set: 0 asks for the bit, any other code sets it too.
fn operation(set: &mut [u32; 8], code: u8, idx: usize) -> bool
    requires { idx < 256 }
{
    if code == 0 {
        bitset::is_visited(set, idx)
    } else {
        bitset::visit(set, idx)
    }
}

// `t`: pairs of an operation and an index, on one set of 256 bits.
pub fn visits<W: Write>(out: &mut W, pairs: &[u8]) -> Result<(), Refusal> {
    let mut set = [0u32; 8];
    for pair in pairs.chunks_exact(2) {
        let bit = operation(&mut set, pair[0], usize::from(pair[1]));
        text::decimal(out, u64::from(bit))?;
    }
    Ok(())
}
