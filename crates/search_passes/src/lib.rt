// The search of find_path of tree_cache.rs, over work: its passes.
#![tactic(auto)]

mod search_limit;
mod search_step;
mod search_visit;

ghost use Rattle.std.specs.Prelude.{[], ◌≤◌, ◌<◌, length};
ghost use Rattle.words.specs.Words.{at, WORK};
ghost use Rattle.work_layout.specs.Layout.{USED, ENTRIES};
ghost use Rattle.work_layout.specs.Rows.{Tops, Sound, all_counts};
ghost use Rattle.search_list.specs.Cursor.{Mid};
ghost use Rattle.search_list.specs.State.{trails_of, count_at};
ghost use Rattle.search_list.specs.Steps.{Links, Working, Cleared, unseen};
ghost use Rattle.search_passes.specs.Passes.{Passes, Started};
ghost use Rattle.search_passes.specs.Finds.{Finds};

use search_list::{Cursor, Search};
use std::ops::ControlFlow;
use words::slices;
use work_layout::parents::Parent;
use work_layout::{EntryIndex, SEEN};

// Pass l over the whole list: the search for the next pass, or what the search gives.
fn pass(work: &mut [u32], l: usize, first: Search) -> ControlFlow<Option<usize>, Search>
    requires { (Working work.old first.depth first.paths first.nodes) × (Mid l (trails_of work.old first.paths) 0) }
    ensures { Passes work.old work.new l first result }
{
    let mut at = Cursor {
        slot: 0,
        search: first,
    };
    while at.slot < at.search.paths {
        at = search_step::turn(work, l, at)?;
    }
    ControlFlow::Continue(at.search)
}

// No entry in use is seen.
fn clear_seen(work: &mut [u32])
    requires { (WORK ≤ length work.old) × (at work.old USED ≤ ENTRIES) }
    ensures { Cleared work.old work.new }
{
    let used = work[work_layout::USED] as usize;
    let end = SEEN + (used + 31) / 32;
    slices::clear(&mut work[SEEN..end]);
}

// One path, with no bits, at entry e, position 1.
fn start(work: &mut [u32], e: EntryIndex)
    requires { (WORK ≤ length work.old) × (at work.old USED ≤ ENTRIES) × (e.0 < at work.old USED) }
    ensures { Started work.old work.new e.0 }
{
    clear_seen(work);
    work[work_layout::LENS] = 0;
    search_list::put_at_entry(work, 0, 0, Parent::new(e, true));
}

// The passes 0, 1, .. up to the last one, from the start.
fn all_passes(work: &mut [u32], e: EntryIndex, len: u64, depth: usize) -> Option<usize>
    requires { (Links work.old) × (Tops work.old depth) × (unseen (count_at work.old) [] ENTRIES ≤ 2048) × (e.0 < at work.old USED) }
    ensures { Finds work.old work.new depth len e.0 result }
{
    let limit = search_limit::limit_of(len);
    start(work, e);
    let mut s = Search {
        paths: 1,
        nodes: 0,
        depth,
    };
    for l in 0..=limit {
        if s.paths == 0 {
            return None;
        }
        match pass(work, l, s) {
            ControlFlow::Continue(next) => s = next,
            ControlFlow::Break(path) => return path,
        }
    }
    None
}

// The slot of the path to entry e, of length len, from a stack of `depth` entries, if there is one.
pub fn search(work: &mut [u32], e: EntryIndex, len: u64, depth: usize) -> Option<usize>
    requires { (Sound work.old) × (Tops work.old depth) × (all_counts work.old ENTRIES ≤ 2048) × (e.0 < at work.old USED) }
    ensures { Finds work.old work.new depth len e.0 result }
{
    all_passes(work, e, len, depth)
}
