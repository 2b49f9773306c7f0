// One bit more in a path's store, which is lent.
ghost use Rattle.std.specs.Prelude.{◌+◌, ◌*◌, ◌-◌, ◌/◌, ◌^◌, ◌≤◌, ◌<◌, length, get_or};
ghost use Rattle.path_builder.specs.Builder.{Counts};
ghost use Rattle.path_builder.specs.Put.{Put};

use crate::PathBuilder;

impl PathBuilder {
    // One bit more, and then the place below; after place 0 it is place 7 of the next byte. A new byte is stored, not added to: nothing is assumed of
    // the bytes after those in use.
    pub(super) fn push_bit(self, store: &mut [u8], bit: u8) -> PathBuilder
        requires { (Counts self) × (bit < 2) × (self.in_use + (self.bit_pos + 1) / 8 ≤ length store.old)
            × (self.bit_pos < 7 → get_or store.old (self.in_use - 1) 0 + bit * 2 ^ self.bit_pos < 256) }
        ensures { Put store.old self.in_use self.bit_pos bit store.new result }
    {
        let n = self.in_use as usize;
        if self.bit_pos == 7 {
            store[n] = bit << 7;
            return PathBuilder {
                in_use: self.in_use + 1,
                bit_pos: 6,
            };
        }
        store[n - 1] += bit << self.bit_pos;
        PathBuilder {
            bit_pos: (self.bit_pos + 7) % 8,
            ..self
        }
    }
}
