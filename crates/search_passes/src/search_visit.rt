// A turn of the search at an entry.
ghost use Rattle.std.specs.Prelude.{◌≡◌, false, ◌/◌, ◌<◌};
ghost use Rattle.spec_search.specs.Search.{most_visits};
ghost use Rattle.search_list.specs.Steps.{Working, Steps};
ghost use Rattle.search_list.specs.State.{place_at, extra_at, seen_at};

use search_list::{Cursor, Turned, search_copies, search_moves};
use std::ops::ControlFlow;

// The most visits of a search.
const MOST_VISITS: usize = 1024;

// The visit of the entry of the path at the cursor, which is not seen.
fn visit(work: &mut [u32], at: Cursor) -> Turned
    requires { (Working work.old at.search.depth at.search.paths at.search.nodes)
        × (at.slot < at.search.paths)
        × (extra_at work.old at.slot ≡ 0)
        × (false ≡ seen_at work.old (place_at work.old at.slot / 2))
        × (at.search.nodes < most_visits) }
    ensures { Steps work.old work.new at.search.depth at.slot at.search.paths at.search.nodes result }
{
    let e = search_list::entry_of(work, at.slot);
    search_copies::add_node(work, at.slot, at.search.nodes);
    let mut next = at;
    next.search.nodes += 1;
    match search_moves::first_unseen(work, e) {
        Some(k) => {
            next.search.paths = next.go_up(work, e, k);
            next.slot += 1;
        }
        None => next.search.paths = next.go_off(work, e),
    }
    ControlFlow::Continue(next)
}

// The step of the path at the cursor, which is at an entry.
pub fn step_entry(work: &mut [u32], at: Cursor) -> Turned
    requires { (Working work.old at.search.depth at.search.paths at.search.nodes)
        × (at.slot < at.search.paths)
        × (extra_at work.old at.slot ≡ 0) }
    ensures { Steps work.old work.new at.search.depth at.slot at.search.paths at.search.nodes result }
{
    if search_list::is_seen(work, search_list::entry_of(work, at.slot)) {
        let mut next = at;
        next.search.paths -= 1;
        search_moves::drop_path(work, at.slot, next.search.paths, at.search.nodes);
        return ControlFlow::Continue(next);
    }
    if at.search.nodes == MOST_VISITS {
        return ControlFlow::Break(None);
    }
    visit(work, at)
}
