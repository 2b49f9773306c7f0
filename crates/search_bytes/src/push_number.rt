// The bits of a number, pushed.
ghost use Rattle.std.specs.Prelude.{◌≡◌, ◌+◌, length};
ghost use Rattle.path.specs.Bytes.{odd};
ghost use Rattle.path_builder.specs.Builder.{right, built, Sound};
ghost use Rattle.search_bytes.specs.Built.{with_number, Holds, Fits};

use path_builder::{ChildPos, PathBuilder};

// The step of a number's lowest bit.
fn lowest_step(number: u64) -> ChildPos
    ensures { right result ≡ odd number }
{
    if number % 2 == 1 {
        ChildPos::Right
    } else {
        ChildPos::Left
    }
}

// So many bits of a number, the lowest first. The builder is taken field by field, here and where a path is short: as a whole it is one word, from
// which each push would take the fields again.
pub fn push_number(store: &mut [u8], builder: PathBuilder, number: u64, count: usize) -> PathBuilder
    requires { (Sound store.old builder) × (Fits store.old (count + length (built store.old builder))) }
    ensures { Holds store.new result (with_number count number (built store.old builder)) }
{
    let mut longer = PathBuilder {
        in_use: builder.in_use,
        bit_pos: builder.bit_pos,
    };
    let mut rest = number;
    for _ in 0..count {
        longer = longer.push(store, lowest_step(rest));
        rest /= 2;
    }
    longer
}
