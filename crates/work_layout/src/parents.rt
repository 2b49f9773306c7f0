// The parents of the entries of the tree cache, in work: how many an entry has, each, and the words of two that they lie in.
ghost use Rattle.std.specs.Prelude.{◌≡◌, ◌+◌, ◌*◌, ◌/◌, ◌<◌, ◌≤◌, length, drop, if◌then◌else◌};
ghost use Rattle.std.proofs.Math.Seq.{paste};
ghost use Rattle.words.specs.Words.{at, WORK};
ghost use Rattle.work_layout.specs.Layout.{ENTRIES, COUNTS, PARENTS, SEEN, MAX_PARENTS};
ghost use Rattle.work_layout.specs.Rows.{links_at, link_at, moved_at};
ghost use Rattle.work_layout.specs.Parents.{ParentSet, LinksSet, MovedSet};

use crate::{COUNTS, ENTRIES, EntryIndex, MOVED, PARENTS, halves};
use words::slices;

// A parent: its entry, doubled, and 1 more for the right position below it.
#[derive(Clone, Copy, Debug, PartialEq, Eq)]
pub struct Parent(pub u32);

impl Parent {
    // The parent e, with the left or the right position below it.
    pub fn new(e: EntryIndex, right: bool) -> Parent
        requires { e.0 < ENTRIES }
        ensures { result.0 ≡ e.0 * 2 + (if right then 1 else 0) }
    {
        Parent(e.0 * 2 + u32::from(right))
    }

    // Its entry.
    pub fn entry(self) -> EntryIndex
        ensures { result.0 ≡ self.0 / 2 }
    {
        EntryIndex(self.0 / 2)
    }
}

// How many parents entry e has.
pub fn count_of(work: &[u32], e: EntryIndex) -> usize
    requires { (WORK ≤ length work.now) × (e.0 < ENTRIES) × (at work.now (COUNTS + e.0) ≤ MAX_PARENTS) }
    ensures { (result ≡ at work.now (COUNTS + e.0)) × (result ≤ MAX_PARENTS) }
{
    work[COUNTS + e.0 as usize] as usize
}

// The word of parent i of entry e.
fn word_of(e: EntryIndex, i: usize) -> usize
    requires { (e.0 < ENTRIES) × (i < MAX_PARENTS) }
    ensures { result ≡ PARENTS + i / 2 * ENTRIES + e.0 }
{
    PARENTS + i / 2 * ENTRIES + e.0 as usize
}

// Parent i of entry e.
pub fn parent_at(work: &[u32], e: EntryIndex, i: usize) -> Parent
    requires { (WORK ≤ length work.now) × (e.0 < ENTRIES) × (i < MAX_PARENTS) }
    ensures { result.0 ≡ link_at work.now e.0 i }
{
    Parent(halves::half_at(work, word_of(e, i), i % 2))
}

// Parent i of entry e is p.
pub fn set_parent(work: &mut [u32], e: EntryIndex, i: usize, p: Parent)
    requires { (WORK ≤ length work.old) × (e.0 < ENTRIES) × (i < MAX_PARENTS) × (p.0 < 2 * ENTRIES) }
    ensures { ParentSet work.old work.new e.0 i p.0 }
{
    halves::set_half(work, word_of(e, i), i % 2, p.0);
}

// Word c of the parents of entry e, its parents 2 c and 2 c + 1.
pub fn links_at(work: &[u32], e: EntryIndex, c: usize) -> u32
    requires { (WORK ≤ length work.now) × (e.0 < ENTRIES) × (2 * c < MAX_PARENTS) }
    ensures { result ≡ links_at work.now e.0 c }
{
    work[PARENTS + c * ENTRIES + e.0 as usize]
}

// Word c of the parents of entry e is v.
pub fn set_links(work: &mut [u32], e: EntryIndex, c: usize, v: u32)
    requires { (WORK ≤ length work.old) × (e.0 < ENTRIES) × (2 * c < MAX_PARENTS) }
    ensures { LinksSet work.old work.new e.0 c v }
{
    work[PARENTS + c * ENTRIES + e.0 as usize] = v;
}

// The first words of the parents of the first n entries stand from `to` on too. This and the next are one line each, the copy one way and the other.
pub fn save_first_links(work: &mut [u32], n: usize, to: usize)
    requires { (WORK ≤ length work.old) × (n ≤ ENTRIES) × (SEEN ≤ to) × (to + n ≤ WORK) }
    ensures { work.new ≡ paste work.old to (drop PARENTS work.old) n }
{
    slices::copy_within(work, PARENTS, to, n);
}

// The n words that stand from `from` on become the first ones of the parents of the first n entries.
pub fn bring_first_links(work: &mut [u32], n: usize, from: usize)
    requires { (WORK ≤ length work.old) × (n ≤ ENTRIES) × (SEEN ≤ from) × (from + n ≤ WORK) }
    ensures { work.new ≡ paste work.old PARENTS (drop from work.old) n }
{
    slices::copy_within(work, from, PARENTS, n);
}

// Parent i of those that an update moves. This and the next stay beside `parent_at` and `set_parent`, named in docs/AUDIT.md: a line each, elsewhere in work.
pub fn moved_at(work: &[u32], i: usize) -> Parent
    requires { (WORK ≤ length work.now) × (i < MAX_PARENTS) }
    ensures { result.0 ≡ moved_at work.now i }
{
    Parent(halves::half_at(work, MOVED + i / 2, i % 2))
}

// Parent i of those that an update moves is p.
pub fn set_moved(work: &mut [u32], i: usize, p: Parent)
    requires { (WORK ≤ length work.old) × (i < MAX_PARENTS) × (p.0 < 2 * ENTRIES) }
    ensures { MovedSet work.old work.new i p.0 }
{
    halves::set_half(work, MOVED + i / 2, i % 2, p.0);
}
