// One item of a serialized tree: a pair's mark, an atom, or a reference.
#![tactic(auto)]

mod read_error;
mod read_value;
mod settle;

ghost use Rattle.std.specs.Prelude.{◌≡◌, ◌+◌, ◌≤◌, length};
ghost use Rattle.words.specs.Words.{WORK};
ghost use Rattle.read_store.specs.Layout.{PushedPair};
ghost use Rattle.read_item.specs.Whole.{Stands};
ghost use Rattle.read_item.specs.Step.{Stepped, pair_begun};

use read_cursor::Head;
pub use read_error::ReadError;
use read_store::reader_stacks;
pub use settle::{Item, Reader};

fn pair_item(work: &mut [u32], r: Reader) -> Reader
    requires { (WORK ≤ length work.old) × (r.ops + 2 ≤ 131072) × (r.position ≤ 65535) }
    ensures { (PushedPair work.old work.new r.ops) × (result ≡ pair_begun r) }
{
    reader_stacks::push_pair(work, r.ops);
    let mut next = r;
    next.position += 1;
    next.ops += 2;
    next
}

// The next item.
pub fn next_item(
    input: &[u8],
    work: &mut [u32],
    pairs: &mut [u32],
    atoms: &mut [u32],
    bytes: &mut [u8],
    r: Reader,
) -> Result<Item, ReadError>
    requires { Stands input.now work.old pairs.old atoms.old bytes.old r }
    ensures { Stepped input.now work.old pairs.old atoms.old bytes.old
        r work.new pairs.new atoms.new bytes.new result }
{
    let Some(head) = read_cursor::head_at(input, r.position) else {
        return Err(ReadError::SerializationError);
    };
    match head {
        Head::Pair => Ok(Item::Go(pair_item(work, r))),
        Head::Path(found) => read_value::path_item(input, work, pairs, r, found?),
        Head::Atom(found) => read_value::atom_item(input, work, pairs, atoms, bytes, r, found?),
    }
}
