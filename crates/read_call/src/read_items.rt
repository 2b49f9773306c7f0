// All items of a serialized tree, one after the other.
ghost use Rattle.spec_reading.specs.Store.{read_stored};
ghost use Rattle.read_item.specs.Whole.{Lent};
ghost use Rattle.read_call.specs.read_items.Verdict.{start, ReadAll};

use read_item::{Item, ReadError, Reader};

// All items: where the reader stands after them.
pub fn read_all(
    input: &[u8],
    work: &mut [u32],
    pairs: &mut [u32],
    atoms: &mut [u32],
    bytes: &mut [u8],
) -> Result<Reader, ReadError>
    requires { Lent input.now work.old pairs.old atoms.old bytes.old start }
    ensures { ReadAll input.now work.new pairs.new atoms.new bytes.new
        (read_stored input.now) result }
{
    let mut r = Reader {
        position: 0,
        ops: 0,
        values: 0,
        listed: 0,
        pairs: 0,
        atoms: 0,
        bytes: 0,
        ghosts: 0,
    };
    // As many turns as there are bytes are enough: each item takes one at least. Where they do not end the reading, the input ends too early.
    for _ in 0..input.len() {
        match read_item::next_item(input, work, pairs, atoms, bytes, r)? {
            Item::Go(next) => r = next,
            Item::Whole(last) => return Ok(last),
        }
    }
    Err(ReadError::SerializationError)
}
