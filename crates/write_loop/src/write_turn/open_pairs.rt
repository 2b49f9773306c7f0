// incremental.rs: a pair opened; its left side is next.
ghost use Rattle.std.specs.Prelude.{◌≡◌, true, List, ℕ};
ghost use Rattle.allocator.specs.Handle.{node_of, is_pair};
ghost use Rattle.write_loop.specs.Effects.{TurnsFound, Found};

use crate::write_turn::Next;
use allocator::NodePtr;
use work_layout::EntryIndex;
use write_place::{AddError, Place};

// The most pairs that may be open: question 12.
const MAX_OPEN: usize = 4096;

// A pair in full: its `ff`; its left side is next.
pub fn open_pair(
    work: &mut [u32],
    output: &mut [u8],
    place: Place,
    node: NodePtr,
    e: EntryIndex,
) -> Next
    requires { (Found work.old output.old place node.0 e.0 None) × (is_pair (node_of node.0) ≡ true) }
    ensures { (file : List ℕ)
        → TurnsFound file work.old work.new output.old output.new place node
        e.0 None result }
{
    let opens = place.opens;
    if opens >= MAX_OPEN {
        return Next::Refused(AddError::TooManyOpen, place);
    }
    let Ok(counts) = write_item::write_cons(output, place.counts) else {
        return Next::Refused(AddError::OutputFull, place);
    };
    let left = cache_entries::left_of(work, node.index() as usize);
    work[work_layout::OPEN + opens] = node.index() * 2 + 1;
    let opened = Place {
        opens: opens + 1,
        counts,
        ..place
    };
    Next::Parse(opened, left)
}
