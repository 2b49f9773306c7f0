// A turn of the search.
ghost use Rattle.std.specs.Prelude.{◌<◌};
ghost use Rattle.search_list.specs.Cursor.{Mid};
ghost use Rattle.search_list.specs.Steps.{Working, Steps, Turns};
ghost use Rattle.search_list.specs.State.{trails_of, extra_at};

use crate::search_visit;
use search_list::{Cursor, Turned};
use std::ops::ControlFlow;

// The step of the path at the cursor, which is on the stack.
fn step_stack(work: &mut [u32], at: Cursor) -> Turned
    requires { (Working work.old at.search.depth at.search.paths at.search.nodes)
        × (at.slot < at.search.paths)
        × (0 < extra_at work.old at.slot) }
    ensures { Steps work.old work.new at.search.depth at.slot at.search.paths at.search.nodes result }
{
    let distance = search_list::distance_of(work, at.slot);
    if distance == 0 {
        return ControlFlow::Break(Some(at.slot));
    }
    let a = search_list::node_of(work, at.slot);
    let x = search_list::extra_of(work, at.slot);
    search_list::put_on_stack(work, at.slot, a, distance - 1, x + 1);
    ControlFlow::Continue(Cursor {
        slot: at.slot + 1,
        ..at
    })
}

// A turn of pass l: the path at the cursor is passed over where it has more than l bits, and stepped otherwise.
pub fn turn(work: &mut [u32], l: usize, at: Cursor) -> Turned
    requires { (Working work.old at.search.depth at.search.paths at.search.nodes)
        × (Mid l (trails_of work.old at.search.paths) at.slot)
        × (at.slot < at.search.paths) }
    ensures { Turns work.old work.new at.search.depth l at.slot at.search.paths at.search.nodes result }
{
    if search_list::size_of(work, at.slot) > l {
        return ControlFlow::Continue(Cursor {
            slot: at.slot + 1,
            ..at
        });
    }
    if search_list::extra_of(work, at.slot) > 0 {
        return step_stack(work, at);
    }
    search_visit::step_entry(work, at)
}
