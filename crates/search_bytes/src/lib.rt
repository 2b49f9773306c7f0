// The bytes of a path that was found, made by `PathBuilder` where they belong: its bits are pushed, the first one first, and then right-aligned.
#![tactic(auto)]

mod node_bits;
mod push_number;
mod stack_bits;

ghost use Rattle.std.specs.Prelude.{◌≡◌, ◌≤◌, length};
ghost use Rattle.words.specs.Words.{WORK};
ghost use Rattle.path.specs.Bytes.{path_bytes};
ghost use Rattle.search_list.specs.State.{path_at, Readable};

// The path at a slot, right-aligned in bytes, in `out`, which has as many.
pub fn path_bytes(work: &[u32], slot: usize, out: &mut [u8])
    requires { (WORK ≤ length work.now) × (Readable work.now slot) × (length out.old ≡ length (path_bytes (path_at work.now slot))) }
    ensures { out.new ≡ path_bytes (path_at work.now slot) }
{
    let a = search_list::node_of(work, slot) as usize;
    let x = search_list::extra_of(work, slot) as usize;
    let node = node_bits::push_node(work, a, out);
    let whole = stack_bits::push_stack(out, node, x);
    whole.done(out);
}
