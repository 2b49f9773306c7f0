// The bits of a path: how many there are, and each of them.
ghost use Rattle.std.specs.Prelude.{◌≡◌, Bool, false, List, ◌*◌, ◌≤◌, ◌<◌, length, get_or};
ghost use Rattle.std.proofs.Math.Option.{some};
ghost use Rattle.path.specs.Bytes.{read_path};
ghost use Rattle.path.specs.Answers.{counted};
ghost use Rattle.words.specs.Options.{option_of};

use crate::traverse_path::{first_non_zero, msb_mask};

// How many bits a path has below its most significant set bit; none are set in the path of nil.
pub fn path_bits(path: &[u8]) -> Option<usize>
    requires { length path.now ≤ 65535 }
    ensures { option_of result ≡ counted (read_path path.now) }
{
    let first = first_non_zero(path);
    if path.len() <= first {
        return None;
    }
    let mask = msb_mask(path[first]);
    let place = mask.ilog2() as usize;
    Some(8 * (path.len() - 1 - first) + place)
}

// Bit i of a path, from the lowest up.
pub fn path_bit(path: &[u8], i: usize) -> bool
    requires { i < 8 * length path.now }
    ensures { (bits : List Bool) → read_path path.now ≡ some bits → i < length bits → result ≡ get_or bits i false }
{
    let byte = path[path.len() - 1 - i / 8];
    let k = (i % 8) as u8;
    (byte >> k) % 2 == 1
}
