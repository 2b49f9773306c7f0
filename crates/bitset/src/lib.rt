// A set of numbers, one bit for each, in a lent part of words. `clear` is `words::slices::clear`.
#![tactic(auto)]

ghost use Rattle.std.specs.Prelude.{◌≡◌, true, false, ◌*◌, ◌<◌, length, get_or, set};
ghost use Rattle.bitset.specs.BitSet.{bits_of};

// Whether the number is marked.
pub fn is_visited(bits: &[u32], idx: usize) -> bool
    requires { idx < 32 * length bits.now }
    ensures { result ≡ get_or (bits_of bits.now) idx false }
{
    (bits[idx / 32] >> (idx % 32)) % 2 == 1
}

// Marks the number, and returns whether it was marked already.
pub fn visit(bits: &mut [u32], idx: usize) -> bool
    requires { idx < 32 * length bits.old }
    ensures { (result ≡ get_or (bits_of bits.old) idx false)
        × (bits_of bits.new ≡ set (bits_of bits.old) idx true) }
{
    let visited = is_visited(bits, idx);
    bits[idx / 32] |= 1 << (idx % 32);
    visited
}
