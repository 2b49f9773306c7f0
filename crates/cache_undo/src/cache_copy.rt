// tree_cache.rs: the cache in a copy of undo, saved and put back: entries, parents, and the map of pairs.
ghost use Rattle.std.specs.Prelude.{◌≡◌, ℕ, ◌+◌, ◌*◌, ◌≤◌, ◌<◌, length, List};
ghost use Rattle.words.specs.Words.{at, WORK};
ghost use Rattle.work_layout.specs.Layout.{PAIR_COUNT, COUNTS, SEEN, COPIES, USED, ENTRIES, MAX_PARENTS};
ghost use Rattle.work_layout.specs.Rows.{Sound, all_counts, further, all_further};
ghost use Rattle.cache_undo.specs.cache_copy.Effects.{ListCopied, ListsCopied, CacheSaved};
ghost use Rattle.cache_undo.specs.cache_copy.Effects.{TakenOff, Bringable, CacheBrought};

use words::slices;
use work_layout::{COPIES, COPY, COUNTS, EntryIndex, MAPS, PAIR_COUNT, USED, parents};

// Where the cache lies in a copy of undo, after the marks: how many entries, the map of pairs, how many parents each entry has, the first word of each entry's
// parents (two of them), and the further words of one entry after the other.
const COPIED_USED: usize = 8289;

const COPIED_MAPS: usize = 8290;

const COPIED_COUNTS: usize = 9314;

const COPIED_FIRSTS: usize = 12386;

const COPIED_FURTHERS: usize = 15458;

// Which way the further words go: into a copy of undo, or back from it.
const SAVE: bool = true;

const BRING: bool = false;

// The further words of the n parents of entry e stand from `place` on too: they go there, or come from there. Answers where they end.
fn copy_list<const SAVED: bool>(work: &mut [u32], e: EntryIndex, n: usize, place: usize) -> usize
    requires { (WORK ≤ length work.old) × (e.0 < ENTRIES) × (n ≤ MAX_PARENTS) × (SEEN ≤ place) × (place + further n ≤ WORK) }
    ensures { (result ≡ place + further n) × ListCopied SAVED work.old work.new e.0 (further n) place }
{
    // Most entries have two parents at most, and so no further words.
    if n <= 2 {
        return place;
    }
    let further = (n - 1) / 2;
    for i in 0..further {
        if SAVED {
            work[place + i] = parents::links_at(work, e, i + 1);
        } else {
            let word = work[place + i];
            parents::set_links(work, e, i + 1, word);
        }
    }
    place + further
}

// The further words of the parents of the first n entries stand from `place` on too, those of one entry after the other.
fn copy_lists<const SAVED: bool>(work: &mut [u32], n: usize, place: usize)
    requires { (WORK ≤ length work.old)
        × (n ≤ ENTRIES)
        × ((e : ℕ) → e < n → at work.old (COUNTS + e) ≤ MAX_PARENTS)
        × (SEEN ≤ place)
        × (place + all_further work.old n ≤ WORK) }
    ensures { ListsCopied SAVED work.old work.new n place }
{
    let mut next = place;
    for e in 0..n {
        let entry = EntryIndex(e as u32);
        let count = parents::count_of(work, entry);
        next = copy_list::<SAVED>(work, entry, count, next);
    }
}

// Copy k gets the cache. Of the map it gets as many words as the file has pairs.
pub fn save(work: &mut [u32], k: usize)
    requires { (Sound work.old) × (all_counts work.old ENTRIES ≤ 2048) × (at work.old PAIR_COUNT ≤ 1024) × (k < 16) }
    ensures { CacheSaved work.old work.new k }
{
    let to = COPIES + k * COPY;
    let used = work[USED];
    let n = used as usize;
    let pairs = work[PAIR_COUNT] as usize;
    work[to + COPIED_USED] = used;
    slices::copy_within(work, MAPS, to + COPIED_MAPS, pairs);
    slices::copy_within(work, COUNTS, to + COPIED_COUNTS, n);
    parents::save_first_links(work, n, to + COPIED_FIRSTS);
    copy_lists::<SAVE>(work, n, to + COPIED_FURTHERS);
}

// The entries from number n on are taken off their slots, the newest first, and have no parents.
fn take_off(work: &mut [u32], n: usize)
    requires { (Sound work.old) × (n ≤ at work.old USED) }
    ensures { TakenOff work.old work.new n }
{
    let used = work[USED] as usize;
    for e in (n..used).rev() {
        let slot = work_layout::slot_of(work[work_layout::LEFT + e], work[work_layout::RIGHT + e]);
        work[work_layout::HEADS + slot] = work[work_layout::NEXT + e];
        work[COUNTS + e] = 0;
    }
    work[USED] = n as u32;
}

// The cache of copy k is the present one again, but for the sentinel's entry.
pub fn bring(work: &mut [u32], k: usize)
    requires { (k < 16) × ((v : List ℕ) × Bringable v work.old k) }
    ensures { (v : List ℕ) → Bringable v work.old k → CacheBrought v work.old work.new }
{
    let from = COPIES + k * COPY;
    let n = work[from + COPIED_USED] as usize;
    let pairs = work[PAIR_COUNT] as usize;
    take_off(work, n);
    slices::copy_within(work, from + COPIED_MAPS, MAPS, pairs);
    slices::copy_within(work, from + COPIED_COUNTS, COUNTS, n);
    parents::bring_first_links(work, n, from + COPIED_FIRSTS);
    copy_lists::<BRING>(work, n, from + COPIED_FURTHERS);
}
