// The format of an atom in a serialized tree: definitions and laws; the prefix table and the marks, which reader and writer share.
// `atom_decode` reads an atom, `atom_encode` writes one.
#![tactic(auto)]

ghost use Rattle.std.specs.Prelude.{◌≡◌, ◌^◌, ◌≤◌, ◌<◌};
ghost use Rattle.std.proofs.Math.Option.{some};
ghost use Rattle.atom.specs.Prefix.{least, width, single, prefix_width};
ghost use Rattle.words.specs.Options.{option_of};

// The least size that each prefix width may carry, for the widths 1 to 5.
const LEAST: [u64; 5] = [0, 64, 8192, 1048576, 134217728];

// What begins an item that is no atom: a pair, and a reference.
pub const CONS_BOX_MARKER: u8 = 0xff;

pub const BACK_REFERENCE: u8 = 0xfe;

// The first size that no prefix holds.
pub const SIZE_LIMIT: u64 = 0x400000000;

// The least size that a prefix of this width may carry; one of six bytes would carry what one of five cannot.
pub fn least_size(width: usize) -> u64
    requires { (1 ≤ width) × (width ≤ 6) }
    ensures { result ≡ least width }
{
    if width == 6 {
        return SIZE_LIMIT;
    }
    LEAST[width - 1]
}

// The width of the shortest prefix for a size.
pub fn shortest_width(size: u64) -> usize
    requires { size < 2 ^ 34 }
    ensures { width size ≡ some result }
{
    for w in 1..5 {
        if size < least_size(w + 1) {
            return w;
        }
    }
    5
}

// Whether an atom stands for itself: a single byte below 0x80.
fn is_single(atom: &[u8]) -> bool
    ensures { result ≡ single atom.now }
{
    matches!(atom, [byte] if *byte < 0x80)
}

// The width of an atom's prefix, 0 where it has none; `None` where no prefix holds its size.
pub fn prefix_width(atom: &[u8]) -> Option<usize>
    ensures { option_of result ≡ prefix_width atom.now }
{
    if is_single(atom) {
        return Some(0);
    }
    let size = atom.len() as u64;
    if SIZE_LIMIT <= size {
        return None;
    }
    Some(shortest_width(size))
}
