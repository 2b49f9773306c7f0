// Bytes read as a number, and compared. The laws of a slice's parts stand here too.
#![tactic(auto)]

pub mod slices;

ghost use Rattle.std.specs.Prelude.{◌≡◌, ◌+◌, ◌≤◌, length};
ghost use Rattle.words.specs.BigEndian.{number_after};
ghost use Rattle.words.specs.Lists.{same};
ghost use Rattle.words.specs.Words.{part};

// The least length of work, in words, of both calls: question 1. Work stays a slice of at least as many words, which each function asks: `[u32; WORK]` would
// ask more of callers, and a struct round a `&mut` slice can say nothing of its length.
pub const WORK: usize = 524288;

// Whether two slices hold the same bytes.
pub fn same_bytes(a: &[u8], b: &[u8]) -> bool
    ensures { result ≡ same a.now b.now }
{
    a == b
}

// The number that the `count` bytes from `position` on make after the number `first`.
pub fn number_at(input: &[u8], position: usize, count: usize, first: u8) -> u64
    requires { (position + count ≤ length input.now) × (count ≤ 5) }
    ensures { result ≡ number_after first (part input.now position count) }
{
    let mut value = u64::from(first);
    for byte in &input[position..position + count] {
        value = value * 256 + u64::from(*byte);
    }
    value
}
