// incremental.rs: after a value, the right side of the innermost open pair, or that pair closed.
ghost use Rattle.std.specs.Prelude.{◌≡◌, List, ℕ, ◌+◌, ◌-◌, ◌≤◌, ◌<◌, length};
ghost use Rattle.words.specs.Words.{at, WORK};
ghost use Rattle.path.specs.declared.Measure.{Measure};
ghost use Rattle.work_layout.specs.Layout.{OPEN, PAIR_COUNT};
ghost use Rattle.cache_stack.specs.Effects.{Stacked};
ghost use Rattle.cache_entries.specs.Meaning.{Whole};
ghost use Rattle.write_loop.specs.declared.write_turn.Next.TheVariants.{Close};
ghost use Rattle.write_place.specs.State.{Standing};
ghost use Rattle.write_loop.specs.Effects.{Runs, Turns, Falls, Closes};

use crate::write_turn::Next;
use cache_entries::lookup;
use cache_stack::stack_pop;
use write_place::Place;

// The two values of pair i, on top of `depth` entries, become one.
fn close_pair(work: &mut [u32], depth: usize, i: usize)
    requires { (Whole work.old) × (Stacked work.old depth) × (2 ≤ depth) × (i < at work.old PAIR_COUNT) }
    ensures { Closes work.old work.new depth i }
{
    stack_pop::pop2(work, depth);
    let e = lookup::pair_entry(work, i);
    let len = search_find::length_at(work, e);
    cache_stack::push_marked(work, depth - 2, e, len);
}

// The word of the innermost of `opens` open pairs.
fn innermost(work: &[u32], opens: usize) -> u32
    requires { (WORK ≤ length work.now) × (0 < opens) × (opens ≤ 4096) }
    ensures { result ≡ at work.now (OPEN + (opens - 1)) }
{
    work[work_layout::OPEN + (opens - 1)]
}

// After a value: the innermost open pair is closed where it is complete, and else its right side is next. Where none is open, all is written.
pub fn close_up(work: &mut [u32], place: Place) -> Next
    requires { Standing work.old place.opens place.depth 1 }
    ensures { (m : Measure) (file out : List ℕ) → Runs work.old out place 1
        → (Turns m file work.old work.new out out (Close place) result) ×
        (Falls (length out) (Close place) result) }
{
    let opens = place.opens;
    if opens == 0 {
        return Next::Done(place);
    }
    let v = innermost(work, opens);
    let i = (v / 2) as usize;
    if v % 2 == 1 {
        let right = cache_entries::right_of(work, i);
        work[work_layout::OPEN + (opens - 1)] = v - 1;
        return Next::Parse(place, right);
    }
    close_pair(work, place.depth, i);
    Next::Close(Place {
        opens: opens - 1,
        depth: place.depth - 1,
        ..place
    })
}
