// The entries of the tree cache, in work: their keys and lengths, and the lookup of a key by chains.
pub mod insert_entry;

ghost use Rattle.std.specs.Prelude.{◌≡◌, ◌<◌};
ghost use Rattle.words.specs.Words.{at};
ghost use Rattle.work_layout.specs.Layout.{USED};
ghost use Rattle.work_layout.specs.Rows.{length_of, rows_of, Sound};
ghost use Rattle.cache_entries.specs.Meaning.{entry_or_none};
ghost use Rattle.cache_entries.specs.table.Effects.{first_word, second_word, find_row, option_of};

use allocator::NodePtr;
use work_layout::EntryIndex;

// The length of entry e.
pub fn length_of(work: &[u32], e: EntryIndex) -> u64
    requires { (Sound work.now) × (e.0 < at work.now USED) }
    ensures { result ≡ length_of work.now e.0 }
{
    let i = e.0 as usize;
    let low = u64::from(work[work_layout::LOW + i]);
    let high = u64::from(work[work_layout::HIGH + i]);
    low + high * 4294967296
}

// A key: the entries of a pair's sides; the handle of an atom; a sentinel's own entry.
#[derive(Clone, Copy, Debug, PartialEq, Eq)]
pub enum Key {
    Pair(EntryIndex, EntryIndex),
    Atom(NodePtr),
    Sentinel(EntryIndex),
}

// The two words that stand for a key in work.
#[derive(Clone, Copy, Debug, PartialEq, Eq)]
struct KeyWords {
    left: u32,
    right: u32,
}

// The first word of an atom's key; the second one is its handle.
const ATOM_KEY: u32 = 0xfffffffe;

// The first word of a sentinel's key; the second one is its entry.
const SENTINEL_KEY: u32 = 0xffffffff;

impl From<Key> for KeyWords {
    ghost from_gives = { λ key k. (k.left ≡ first_word key) × (k.right ≡ second_word key) };

    fn from(key: Key) -> KeyWords {
        match key {
            Key::Pair(l, r) => KeyWords {
                left: l.0,
                right: r.0,
            },
            Key::Atom(h) => KeyWords {
                left: ATOM_KEY,
                right: h.0,
            },
            Key::Sentinel(e) => KeyWords {
                left: SENTINEL_KEY,
                right: e.0,
            },
        }
    }
}

// The entry that a word stands for: the word is one more, or 0 for none.
pub fn found_by(word: u32) -> Option<EntryIndex>
    ensures { option_of result ≡ entry_or_none word }
{
    word.checked_sub(1).map(|e| EntryIndex(e))
}

// The entry with this key, if there is one.
pub fn find_key(work: &[u32], key: Key) -> Option<EntryIndex>
    requires { Sound work.now }
    ensures { option_of result ≡ find_row (first_word key) (second_word key) (rows_of work.now) }
{
    let k = KeyWords::from(key);
    let slot = work_layout::slot_of(k.left, k.right);
    let mut next = found_by(work[work_layout::HEADS + slot]);
    while let Some(e) = next {
        let i = e.0 as usize;
        if work[work_layout::LEFT + i] == k.left && work[work_layout::RIGHT + i] == k.right {
            return Some(e);
        }
        next = found_by(work[work_layout::NEXT + i]);
    }
    None
}
