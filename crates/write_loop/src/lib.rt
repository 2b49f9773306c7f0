// incremental.rs: what an add writes, up to the next open place. The Rust keeps what is left to write on two stacks; here the open pairs in work say it.
#![tactic(auto)]

pub mod write_turn;

ghost use Rattle.words.specs.Words.{at};
ghost use Rattle.std.specs.Prelude.{length};
ghost use Rattle.work_layout.specs.Layout.{PAIR_COUNT};
ghost use Rattle.cache_entries.specs.Meaning.{Names};
ghost use Rattle.write_loop.specs.declared.write_turn.Next.TheVariants.{Parse};
ghost use Rattle.write_place.specs.State.{AtomPlaces};
ghost use Rattle.write_loop.specs.Effects.{Runs, Turns, TurnsFound, Falls, Found, ended};

use allocator::NodePtr;
use cache_entries::lookup;
use path::Measure;
use work_layout::EntryIndex;
use write_place::{Outcome, Place, Refused};
use write_turn::{Next, close_pairs, open_pairs};

// A node for which no reference is written.
fn write_full(
    work: &mut [u32],
    file: &[u8],
    output: &mut [u8],
    place: Place,
    node: NodePtr,
    e: EntryIndex,
) -> Next
    requires { (AtomPlaces file.now work.old) × (Found work.old output.old place node.0 e.0 None) }
    ensures { TurnsFound file.now work.old work.new output.old output.new
        place node e.0 None result }
{
    if node.is_pair() {
        return open_pairs::open_pair(work, output, place, node, e);
    }
    let item = write_turn::write_atom(work, file, output, place.counts, node);
    write_turn::push_value(work, place, e, item)
}

// The node that comes next is written: by a reference where one is found, or in full. The sentinel is the open place.
fn parse(
    work: &mut [u32],
    file: &[u8],
    output: &mut [u8],
    place: Place,
    node: NodePtr,
    measure: Measure,
) -> Next
    requires { (AtomPlaces file.now work.old) × (Runs work.old output.old place 0) × (Names work.old (at work.old PAIR_COUNT) node.0) }
    ensures { (Turns measure file.now work.old work.new output.old output.new
        (Parse place node) result)
        × (Falls (length output.old) (Parse place node) result) }
{
    if cache_entries::is_sentinel(work, node) {
        return Next::Stopped(place);
    }
    let e = lookup::entry_of(work, node);
    match search_find::find(work, node, e, place.depth, measure) {
        Some(slot) => write_turn::refer(work, output, place, node, e, slot),
        None => write_full(work, file, output, place, node, e),
    }
}

// What is left to write: the node, and then what the open pairs say. What is lent stays side by side: a struct of `&mut` slices can carry no invariant.
pub fn resume(
    work: &mut [u32],
    file: &[u8],
    output: &mut [u8],
    place: Place,
    node: NodePtr,
    measure: Measure,
) -> Result<Outcome, Refused>
    requires { (AtomPlaces file.now work.old) × (Runs work.old output.old place 0) × (Names work.old (at work.old PAIR_COUNT) node.0) }
    ensures { Turns measure file.now work.old work.new output.old output.new
        (Parse place node) (ended result) }
{
    let mut next = Next::Parse(place, node);
    loop {
        next = match next {
            Next::Parse(p, h) => parse(work, file, output, p, h, measure),
            Next::Close(p) => close_pairs::close_up(work, p),
            Next::Done(p) => return Ok(Outcome::Done(p)),
            Next::Stopped(p) => return Ok(Outcome::Stopped(p)),
            Next::Refused(error, place) => return Err(Refused { error, place }),
        };
    }
}
