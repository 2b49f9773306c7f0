// The walk down a path's bits, in the stack and in the reader's store: the parts of `traverse_path_with_vec` of de_br.rs that change nothing.
ghost use Rattle.std.specs.Prelude.{◌≡◌, Bool, List, ◌+◌, ◌*◌, ◌≤◌, ◌<◌, length, drop};
ghost use Rattle.std.proofs.Math.Option.{some};
ghost use Rattle.words.specs.Words.{at};
ghost use Rattle.path.specs.Bytes.{read_path};
ghost use Rattle.allocator.specs.Handle.{node_of, index_of};
ghost use Rattle.spec_reading.specs.Store.{pick_word};
ghost use Rattle.read_path.specs.Answers.{down, Walks, Reachable};

use allocator::NodePtr;
use path::path_bits;

// How many of the lowest bits of a path are set, one after the other, `depth` at most: so far it goes down the stack.
pub fn stack_steps(path: &[u8], count: usize, depth: usize) -> usize
    requires { count ≤ 8 * length path.now }
    ensures { (bits : List Bool) → read_path path.now ≡ some bits → count ≡ length bits → result ≡ down bits depth }
{
    let most = count.min(depth);
    for i in 0..most {
        if !path_bits::path_bit(path, i) {
            return i;
        }
    }
    most
}

// A path steps into an atom.
#[derive(Clone, Copy, Debug, PartialEq, Eq)]
pub struct PathIntoAtom;

// The node that a path leads to in the store: down the bits from `from` up to `count`, through the `used` pairs.
pub fn walk_bits(
    path: &[u8],
    from: usize,
    count: usize,
    pairs: &[u32],
    used: usize,
    start: NodePtr,
) -> Result<NodePtr, PathIntoAtom>
    requires { (from ≤ count) × (count ≤ 8 * length path.now) × (Reachable pairs.now used start.0) }
    ensures { (bits : List Bool) → read_path path.now ≡ some bits → count ≡ length bits
        → Walks pairs.now used (drop from bits) start.0 result }
{
    let mut node = start;
    for i in from..count {
        if !node.is_pair() {
            return Err(PathIntoAtom);
        }
        node = side(pairs, node, path_bits::path_bit(path, i));
    }
    Ok(node)
}

// The left or the right side of a pair.
fn side(pairs: &[u32], node: NodePtr, right: bool) -> NodePtr
    requires { 2 * index_of (node_of node.0) + 1 < length pairs.now }
    ensures { result.0 ≡ at pairs.now (2 * index_of (node_of node.0) + pick_word right) }
{
    NodePtr(pairs[2 * (node.index() as usize) + usize::from(right)])
}
