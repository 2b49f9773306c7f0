// The entries of the tree cache, in work: one added.
ghost use Rattle.std.specs.Prelude.{◌≡◌, ◌<◌};
ghost use Rattle.std.proofs.Math.Option.{none};
ghost use Rattle.words.specs.Words.{at};
ghost use Rattle.work_layout.specs.Layout.{USED, ENTRIES};
ghost use Rattle.work_layout.specs.Rows.{rows_of, Sound};
ghost use Rattle.cache_entries.specs.table.Effects.{first_word, second_word, find_row, Inserted};

use crate::table::{Key, KeyWords};
use work_layout::EntryIndex;

// A new entry with this key, which none has yet, and no parents.
pub fn insert(work: &mut [u32], key: Key, len: u64) -> EntryIndex
    requires { (Sound work.old)
        × (at work.old USED < ENTRIES)
        × (find_row (first_word key) (second_word key) (rows_of work.old) ≡ none) }
    ensures { Inserted work.old work.new (first_word key) (second_word key) len result.0 }
{
    let k = KeyWords::from(key);
    let slot = work_layout::slot_of(k.left, k.right);
    let used = work[work_layout::USED];
    let e = used as usize;
    let head = work[work_layout::HEADS + slot];
    work[work_layout::LEFT + e] = k.left;
    work[work_layout::RIGHT + e] = k.right;
    work[work_layout::LOW + e] = (len % 4294967296) as u32;
    work[work_layout::HIGH + e] = (len / 4294967296) as u32;
    work[work_layout::NEXT + e] = head;
    work[work_layout::HEADS + slot] = used + 1;
    work[work_layout::USED] = used + 1;
    EntryIndex(used)
}
