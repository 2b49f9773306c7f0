// Whether bytes are those of a small atom, and of which.
ghost use Rattle.std.specs.Prelude.{◌≡◌, ◌<◌, ◌≤◌, length, get_or};
ghost use Rattle.words.specs.BigEndian.{number};
ghost use Rattle.words.specs.Options.{option_of};
ghost use Rattle.allocator.specs.SmallAtom.{is_small_atom, fits_in_small_atom};

// The number that bytes make, the highest first.
fn number_of(v: &[u8]) -> u32
    requires { length v.now ≤ 4 }
    ensures { result ≡ number v.now }
{
    let mut ret: u32 = 0;
    for byte in v {
        ret = (ret << 8) | u32::from(*byte);
    }
    ret
}

// Whether the first byte, a zero, keeps the next one's top bit from making the number negative. Otherwise it is redundant.
fn zero_is_needed(v: &[u8]) -> bool
    requires { (0 < length v.now) × (length v.now ≤ 4) × (get_or v.now 0 0 ≡ 0) }
    ensures { result ≡ is_small_atom v.now }
{
    if v.len() == 1 {
        return false;
    }
    v[1] >= 0x80
}

// Whether bytes are the shortest form of a number that is not negative and has at most 26 bits.
fn is_small_atom(v: &[u8]) -> bool
    ensures { result ≡ is_small_atom v.now }
{
    if v.is_empty() {
        return true;
    }
    if v.len() > 4 {
        return false;
    }
    if v[0] == 0 {
        return zero_is_needed(v);
    }
    // If the top bit is set, it's a negative number.
    if v[0] >= 0x80 {
        return false;
    }
    // Of four bytes the top one can't use more than 2 bits.
    if v.len() == 4 {
        return v[0] <= 3;
    }
    true
}

// The value of the small atom with these bytes, if there is one.
pub fn fits_in_small_atom(v: &[u8]) -> Option<u32>
    ensures { option_of result ≡ fits_in_small_atom v.now }
{
    if is_small_atom(v) {
        Some(number_of(v))
    } else {
        None
    }
}
