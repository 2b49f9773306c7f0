// `traverse_path_with_vec` of de_br.rs: what a reference's path leads to, from the stack of values.
#![tactic(auto)]

mod path_walk;
pub mod stack_list;

ghost use Rattle.std.specs.Prelude.{◌≡◌, ◌*◌, ◌≤◌, length, take};
ghost use Rattle.path.specs.Bytes.{read_path};
ghost use Rattle.spec_reading.specs.Store.{Store};
ghost use Rattle.read_store.specs.Layout.{values_of};
ghost use Rattle.read_path.specs.Leads.{led, Walkable, LeadsTo, SameTotal};

use allocator::NodePtr;
use path::path_bits;
pub use path_walk::PathIntoAtom;
use read_store::reader_stacks::VALUES;
pub use stack_list::{Built, Counts};

// What a path leads to from the stack of `values` values, through the pairs: a node, with the counts then. The slices are lent, there is no heap: the
// counts say how much of them is in use.
pub fn traverse_path_with_vec(
    path: &[u8],
    work: &mut [u32],
    pairs: &mut [u32],
    values: usize,
    counts: Counts,
) -> Result<Built, PathIntoAtom>
    requires { (length path.now ≤ 65535)
        × (Walkable work.old pairs.old values counts.listed counts.pairs counts.ghosts) }
    ensures leads_to { (s : Store) → s.pairs ≡ take (2 * counts.pairs) pairs.old → s.ghosts ≡ counts.ghosts
        → LeadsTo work.old pairs.old values counts.pairs
        (led (read_path path.now) (values_of work.old values) s) work.new
        pairs.new result }
    ensures same_total { SameTotal counts.pairs counts.ghosts result }
{
    let Some(count) = path_bits::path_bits(path) else {
        return Ok(Built {
            node: NodePtr::NIL,
            counts,
        });
    };
    let steps = path_walk::stack_steps(path, count, values);
    if steps == values {
        let node = path_walk::walk_bits(path, steps, count, pairs, counts.pairs, NodePtr::NIL)?;
        return Ok(Built { node, counts });
    }
    if steps == count {
        return Ok(stack_list::build_list(work, pairs, values - steps, counts));
    }
    let value = NodePtr(work[VALUES + 2 * (values - 1 - steps)]);
    let node = path_walk::walk_bits(path, steps + 1, count, pairs, counts.pairs, value)?;
    Ok(Built { node, counts })
}
