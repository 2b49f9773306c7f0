// de_br.rs: the pairs that a value completes, and what comes next.
ghost use Rattle.std.specs.Prelude.{◌≡◌, ◌∷◌, ◌-◌, ◌<◌, ◌≤◌, length};
ghost use Rattle.spec_reading.specs.Format.{Cons};
ghost use Rattle.read_store.specs.Layout.{ops_of};
ghost use Rattle.read_item.specs.State.{Ready, Onward, Settled, Next};

use crate::read_error::ReadError;
use read_path::stack_list;
use read_store::join_values;
use read_store::reader_stacks::OPS;

// Where the reader stands: the next byte, and how much of each stack and of the store is in use. The lowest `listed` values are known to have a list.
// `Counts` of read_path would be no plainer here: only a path takes them together, and each law of the reader tells of one of them.
#[derive(Clone, Copy, Debug, PartialEq, Eq)]
pub struct Reader {
    pub position: usize,
    pub ops: usize,
    pub values: usize,
    pub listed: usize,
    pub pairs: usize,
    pub atoms: usize,
    pub bytes: usize,
    pub ghosts: usize,
}

// After an item: read on, or everything is read. Neither is a refusal, so no Result; and each has its reader, so no Option.
#[derive(Clone, Copy, Debug, PartialEq, Eq)]
pub enum Item {
    Go(Reader),
    Whole(Reader),
}

// The topmost operation, a join, is done. The lists of the two values go with them, and the pair has none.
fn join_top(work: &mut [u32], pairs: &mut [u32], r: Reader) -> Reader
    requires { (Ready work.old pairs.old r) × (0 < r.ops) × (ops_of work.old r.ops ≡ Cons ∷ ops_of work.old (r.ops - 1)) }
    ensures { (Onward work.old pairs.old r work.new pairs.new result) × (result.ops ≡ r.ops - 1) }
{
    let listed = stack_list::listed_among(r.listed, r.values - 2);
    join_values::join(work, pairs, r.values, r.pairs);
    let mut next = r;
    next.ops -= 1;
    next.values -= 1;
    next.listed = listed;
    next.pairs += 1;
    next.ghosts += 1;
    next
}

// The joins on top of the operations are done. The stack shrinks in the loop, so no range counts it.
fn join_all(work: &mut [u32], pairs: &mut [u32], reader: Reader) -> Reader
    requires { Ready work.old pairs.old reader }
    ensures { Settled work.old pairs.old reader work.new pairs.new result }
{
    let mut r = reader;
    while 0 < r.ops {
        let top = r.ops - 1;
        if work[OPS + top] == 0 {
            return r;
        }
        r = join_top(work, pairs, r);
    }
    r
}

// A value is on top: join what there is to join, and see what comes next.
pub fn settle(
    input: &[u8],
    work: &mut [u32],
    pairs: &mut [u32],
    reader: Reader,
) -> Result<Item, ReadError>
    requires { (Ready work.old pairs.old reader) × (reader.position ≤ length input.now) }
    ensures { Next input.now work.old pairs.old reader work.new pairs.new result }
{
    let mut r = join_all(work, pairs, reader);
    if r.ops == 0 {
        if r.position == input.len() {
            return Ok(Item::Whole(r));
        }
        return Err(ReadError::SerializationError);
    }
    r.ops -= 1;
    Ok(Item::Go(r))
}
