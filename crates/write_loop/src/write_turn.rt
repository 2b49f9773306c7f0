// incremental.rs: what comes next in the loop that writes; a reference or an atom written, and its entry put on the stack.
pub mod close_pairs;
pub mod open_pairs;

ghost use Rattle.std.specs.Prelude.{◌≡◌, true, List, ℕ, ◌<◌};
ghost use Rattle.words.specs.Words.{at};
ghost use Rattle.allocator.specs.Handle.{node_of, is_atom};
ghost use Rattle.spec_session.specs.Items.{atom_item};
ghost use Rattle.work_layout.specs.Layout.{ATOM_COUNT, PAIR_COUNT, ENTRIES, DEPTH};
ghost use Rattle.cache_stack.specs.Effects.{Stacked};
ghost use Rattle.write_counts.specs.Counts.{Bounded};
ghost use Rattle.write_item.specs.Answers.{ItemPut};
ghost use Rattle.cache_entries.specs.Meaning.{Names, Whole};
ghost use Rattle.work_layout.specs.Rows.{atom_bytes};
ghost use Rattle.write_place.specs.State.{AtomPlaces};
ghost use Rattle.write_loop.specs.Effects.{TurnsFound, Found, AtomPut, Pushes};

use allocator::NodePtr;
use file_tables::listed_atoms;
use work_layout::EntryIndex;
use write_counts::Counts;
use write_item::{OutputFull, write_reference};
use write_place::{AddError, Place};

// What comes next in the loop.
#[derive(Clone, Copy, Debug, PartialEq, Eq)]
pub enum Next {
    // This node is written.
    Parse(Place, NodePtr),
    // A value was written: the pair that it completes is closed.
    Close(Place),
    Done(Place),
    Stopped(Place),
    // It stands here, and is no `Err`: with a `Result` of this enum sessions of many turns took up to 5 % longer.
    Refused(AddError, Place),
}

// Listed atom i, from where it lies in the file.
fn write_listed(
    work: &[u32],
    file: &[u8],
    output: &mut [u8],
    counts: Counts,
    i: usize,
) -> Result<Counts, OutputFull>
    requires { (Bounded counts) × (Whole work.now) × (AtomPlaces file.now work.now) × (i < at work.now ATOM_COUNT) }
    ensures { ItemPut output.old output.new counts
        (atom_item (atom_bytes file.now work.now i)) result }
{
    let start = listed_atoms::start_of(work, i);
    let end = listed_atoms::end_of(work, i);
    write_item::write_listed(output, counts, &file[start..end])
}

// An atom in full.
pub fn write_atom(
    work: &[u32],
    file: &[u8],
    output: &mut [u8],
    counts: Counts,
    node: NodePtr,
) -> Result<Counts, OutputFull>
    requires { (Bounded counts)
        × (Whole work.now)
        × (AtomPlaces file.now work.now)
        × (Names work.now (at work.now PAIR_COUNT) node.0)
        × (is_atom (node_of node.0) ≡ true) }
    ensures { AtomPut file.now work.now node.0 output.old output.new counts result }
{
    if cache_entries::is_listed(node) {
        return write_listed(work, file, output, counts, node.index() as usize);
    }
    write_item::write_small(output, counts, node.index())
}

// After an item for a whole subtree of entry e: the entry goes on the stack.
pub fn push_value(
    work: &mut [u32],
    place: Place,
    e: EntryIndex,
    item: Result<Counts, OutputFull>,
) -> Next
    requires { (Whole work.old) × (Stacked work.old place.depth) × (place.depth < DEPTH) × (e.0 < ENTRIES) }
    ensures { Pushes work.old work.new place e.0 item result }
{
    let Ok(counts) = item else {
        return Next::Refused(AddError::OutputFull, place);
    };
    let len = search_find::length_at(work, e);
    cache_stack::push_marked(work, place.depth, e, len);
    Next::Close(Place {
        depth: place.depth + 1,
        counts,
        ..place
    })
}

// A reference to the path at a slot.
pub fn refer(
    work: &mut [u32],
    output: &mut [u8],
    place: Place,
    node: NodePtr,
    e: EntryIndex,
    slot: usize,
) -> Next
    requires { Found work.old output.old place node.0 e.0 (Some slot) }
    ensures { (file : List ℕ)
        → TurnsFound file work.old work.new output.old output.new place node
        e.0 (Some slot) result }
{
    let item = write_reference::write_reference(work, slot, output, place.counts);
    push_value(work, place, e, item)
}
