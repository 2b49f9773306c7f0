// The bits of the stack, pushed: a 0, and then each a 1.
ghost use Rattle.std.specs.Prelude.{◌+◌, ◌*◌, length};
ghost use Rattle.path_builder.specs.Builder.{built, Sound};
ghost use Rattle.search_list.specs.State.{trues};
ghost use Rattle.search_bytes.specs.Built.{with_stack, Holds, Fits};

use crate::push_number::push_number;
use path_builder::{ChildPos, PathBuilder};

// A byte of ones.
const ONES: u64 = 0xff;

// Eight ones. Where they begin a byte, the compiler makes one store of them.
fn push_eight(store: &mut [u8], builder: PathBuilder) -> PathBuilder
    requires { (Sound store.old builder) × (Fits store.old (8 + length (built store.old builder))) }
    ensures { Holds store.new result (trues 8 (built store.old builder)) }
{
    if builder.bit_pos == 7 {
        let begun = PathBuilder {
            in_use: builder.in_use,
            bit_pos: 7,
        };
        return push_number(store, begun, ONES, 8);
    }
    push_number(store, builder, ONES, 8)
}

// Eight times so many ones.
fn push_bytes(store: &mut [u8], builder: PathBuilder, bytes: usize) -> PathBuilder
    requires { (Sound store.old builder) × (Fits store.old (8 * bytes + length (built store.old builder))) }
    ensures { Holds store.new result (trues (8 * bytes) (built store.old builder)) }
{
    let mut longer = builder;
    for _ in 0..bytes {
        longer = push_eight(store, longer);
    }
    longer
}

// So many ones: those that fill the last byte, those of whole bytes, and the rest.
fn push_ones(store: &mut [u8], builder: PathBuilder, ones: usize) -> PathBuilder
    requires { (Sound store.old builder) × (Fits store.old (ones + length (built store.old builder))) }
    ensures { Holds store.new result (trues ones (built store.old builder)) }
{
    if ones < 8 {
        return push_number(store, builder, ONES, ones);
    }
    let first = usize::from((builder.bit_pos + 1) % 8);
    let filled = push_number(store, builder, ONES, first);
    let rest = ones - first;
    let whole = push_bytes(store, filled, rest / 8);
    push_number(store, whole, ONES, rest % 8)
}

// The bits of the stack, of which there are x.
pub fn push_stack(store: &mut [u8], builder: PathBuilder, x: usize) -> PathBuilder
    requires { (Sound store.old builder) × (Fits store.old (x + length (built store.old builder))) }
    ensures { Holds store.new result (with_stack x (built store.old builder)) }
{
    if x == 0 {
        return PathBuilder {
            in_use: builder.in_use,
            bit_pos: builder.bit_pos,
        };
    }
    let longer = builder.push(store, ChildPos::Left);
    push_ones(store, longer, x - 1)
}
