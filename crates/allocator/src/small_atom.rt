// Small atoms: the bytes of a value.
ghost use Rattle.std.specs.Prelude.{◌≡◌, ◌-◌, ◌^◌, ◌<◌, ◌≤◌, drop};
ghost use Rattle.allocator.specs.SmallAtom.{len_for_value, LastBytes};

// How many bytes a value takes.
pub fn len_for_value(val: u32) -> usize
    ensures { result ≡ len_for_value val }
{
    if val == 0 {
        0
    } else if val < 0x80 {
        1
    } else if val < 0x8000 {
        2
    } else if val < 0x800000 {
        3
    } else if val < 0x80000000 {
        4
    } else {
        5
    }
}

// A small atom's bytes: the last `len` of four.
#[derive(Clone, Copy, Debug, PartialEq, Eq)]
pub struct SmallAtom {
    pub bytes: [u8; 4],
    pub len: usize,
}

impl SmallAtom {
    // The last `len` of the four bytes.
    pub fn as_ref(&self) -> &[u8]
        requires { self.now.len ≤ 4 }
        ensures { result.now ≡ drop (4 - self.now.len) self.now.bytes }
    {
        let start = 4 - self.len;
        &self.bytes[start..]
    }
}

// The bytes of the small atom `value`.
pub fn small_atom_bytes(value: u32) -> SmallAtom
    requires { value < 2 ^ 31 }
    ensures { LastBytes value result.bytes result.len }
{
    let bytes = value.to_be_bytes();
    let len = len_for_value(value);
    SmallAtom { bytes, len }
}
