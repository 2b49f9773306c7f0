// The reader's two stacks in work.
ghost use Rattle.std.specs.Prelude.{◌+◌, ◌≤◌, ◌<◌, length};
ghost use Rattle.words.specs.Words.{WORK};
ghost use Rattle.read_store.specs.Layout.{PushedValue, PushedPair};

use allocator::NodePtr;

// The operations that are left to do are words from OPS on, 0 to read a tree and 1 to join two; the last one is done first.
pub const OPS: usize = 0;

// The values are two words each from VALUES on: the node, and one more than the list of the stack from there down, 0 where it was not built.
pub const VALUES: usize = 131072;

// A value without a list goes on top of the `used` ones that are there.
pub fn push_value(work: &mut [u32], used: usize, node: NodePtr)
    requires { (WORK ≤ length work.old) × (used < 131072) }
    ensures { PushedValue work.old work.new used node.0 }
{
    work[VALUES + 2 * used] = node.0;
    work[VALUES + 2 * used + 1] = 0;
}

// A pair is to be read: its left side comes next; what is left after that is to read its right side, and to join the two.
pub fn push_pair(work: &mut [u32], used: usize)
    requires { (WORK ≤ length work.old) × (used + 2 ≤ 131072) }
    ensures { PushedPair work.old work.new used }
{
    work[OPS + used] = 1;
    work[OPS + used + 1] = 0;
}
