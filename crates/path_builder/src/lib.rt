// Builds a path backwards, from the target. The bytes are big-endian, the left-most at index 0, and the path is built from left to right, since
// it is followed from right to left. The store is lent.
#![tactic(auto)]

mod path_length;
mod push_bit;
mod right_align;

ghost use Rattle.std.specs.Prelude.{◌≡◌, List, ℕ, eqb, length};
ghost use Rattle.path.specs.Bytes.{bit};
ghost use Rattle.path.specs.Measure.{counted};
ghost use Rattle.path_builder.specs.Builder.{right, built, Counts, Sound, Fresh, Room, Pushed, Finished};

use path_length::counted_bytes;
pub use path_length::measured_bytes;

#[derive(Clone, Copy, Debug, PartialEq, Eq)]
pub enum ChildPos {
    Left,
    Right,
}

// The bit of a step.
impl From<ChildPos> for u8 {
    ghost from_gives = { λ dir b. b ≡ bit (right dir) };

    fn from(dir: ChildPos) -> u8 {
        match dir {
            ChildPos::Left => 0,
            ChildPos::Right => 1,
        }
    }
}

// No heap: the bytes stand in a lent store, which is passed beside the builder, and `Sound` says of the two what no field of the builder alone can.
#[derive(Clone, Copy, Debug, PartialEq, Eq)]
pub struct PathBuilder {
    pub in_use: u32,
    // the place that the next bit goes to (counts down)
    pub bit_pos: u8,
}

impl PathBuilder {
    // No bits.
    pub fn new() -> PathBuilder
        ensures { Fresh result }
    {
        PathBuilder {
            in_use: 0,
            bit_pos: 7,
        }
    }

    // One bit more.
    pub fn push(self, store: &mut [u8], dir: ChildPos) -> PathBuilder
        requires { (Sound store.old self) × (Room store.old self) }
        ensures { Pushed store.old self (right dir) store.new result }
    {
        self.push_bit(store, u8::from(dir))
    }

    // Right-aligns the path in place: its bytes are the first of the store, as many as are returned.
    pub fn done(self, store: &mut [u8]) -> usize
        requires { Sound store.old self }
        ensures { Finished store.old self store.new result }
    {
        let n = self.in_use as usize;
        if self.bit_pos == 7 {
            return n;
        }
        right_align::right_align(store, n, self.bit_pos + 1);
        n
    }

    // Whether there are no bits.
    pub fn is_empty(self) -> bool
        requires { Counts self }
        ensures { (store : List ℕ) → Sound store self → result ≡ eqb (length (built store self)) 0 }
    {
        self.len() == 0
    }

    // The number of bits. At `bit_pos` 7 the bytes are full; otherwise the places of the last byte from `bit_pos` down are free.
    pub fn len(self) -> u32
        requires { Counts self }
        ensures { (store : List ℕ) → Sound store self → result ≡ length (built store self) }
    {
        if self.bit_pos == 7 {
            self.in_use * 8
        } else {
            self.in_use * 8 - u32::from(self.bit_pos) - 1
        }
    }

    // The number of bytes that the path's atom is counted at. The Rust's 80 is decimal.
    pub fn serialized_length(self, store: &[u8]) -> u32
        requires { Sound store.now self }
        ensures { result ≡ counted (built store.now self) }
    {
        let n = self.in_use;
        let full = 0 < n && (self.bit_pos == 7 && store[0] >= 80);
        counted_bytes(n, full)
    }
}
