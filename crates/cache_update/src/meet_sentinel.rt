// tree_cache.rs: the entry of a sentinel, made.
ghost use Rattle.std.specs.Prelude.{◌<◌};
ghost use Rattle.words.specs.Words.{at};
ghost use Rattle.work_layout.specs.Layout.{USED, ENTRIES};
ghost use Rattle.cache_entries.specs.Meaning.{Whole};
ghost use Rattle.cache_entries.specs.Effects.{sentinel_action, Made};

use cache_entries::table::{Key, insert_entry};
use work_layout::EntryIndex;

// A meeting with the sentinel: always a new entry, and the latest one counts.
pub fn meet_sentinel(work: &mut [u32]) -> EntryIndex
    requires { (Whole work.old) × (at work.old USED < ENTRIES) }
    ensures { Made sentinel_action work.old work.new result.0 }
{
    let next = EntryIndex(work[work_layout::USED]);
    let e = insert_entry::insert(work, Key::Sentinel(next), 0);
    work[work_layout::SENTINEL_ENTRY] = e.0 + 1;
    e
}
