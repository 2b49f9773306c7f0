// The pair of the two topmost values of the reader's stack.
ghost use Rattle.std.specs.Prelude.{◌+◌, ◌*◌, ◌^◌, ◌≤◌, ◌<◌, length};
ghost use Rattle.words.specs.Words.{WORK};
ghost use Rattle.read_store.specs.Joined.{Joined};

use crate::reader_stacks;
use crate::reader_stacks::VALUES;
use allocator::NodePtr;

// The two topmost of `values` values become the pair of the second and the first, after the `used` pairs that are there.
pub fn join(work: &mut [u32], pairs: &mut [u32], values: usize, used: usize)
    requires { (WORK ≤ length work.old) × (2 ≤ values) × (values ≤ 131072) × (2 * used + 2 ≤ length pairs.old) × (used < 2 ^ 26) }
    ensures { Joined work.old pairs.old values used work.new pairs.new }
{
    let right = NodePtr(work[VALUES + 2 * (values - 1)]);
    let left = NodePtr(work[VALUES + 2 * (values - 2)]);
    let node = crate::new_pair(pairs, used, left, right);
    reader_stacks::push_value(work, values - 2, node);
}
