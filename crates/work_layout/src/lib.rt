// What lies where in work, 524,288 words: the offset of each region. The sizes stand in specs/Layout.antt, with the proof that no two
// regions meet. Numbers in lent words are what the tree cache, its chains and its lists are made of: there is no heap, for maps or boxes.
#![tactic(auto)]

pub mod halves;
pub mod parents;

ghost use Rattle.std.specs.Prelude.{◌≡◌};
ghost use Rattle.work_layout.specs.Rows.{slot_of};

// Two words for each listed atom of the file: where its bytes start and end: 2,048 words.
pub const ATOMS: usize = 0;

// Two words for each pair of the file: its left and its right handle: 2,048 words.
pub const PAIRS: usize = 2048;

// For each listed atom the first one with the same bytes: 1,024 words.
pub const FIRST: usize = 4096;

// The serialized length of each listed atom: 1,024 words.
pub const ATOM_LENGTHS: usize = 5120;

// Listed atoms by slot: one more than the last one of the slot, or 0: 1,024 words.
pub const ATOM_HEADS: usize = 6144;

// One more than the listed atom before it in the same slot, or 0: 1,024 words.
pub const ATOM_NEXT: usize = 7168;

// How many listed atoms the file has: 1 word.
pub const ATOM_COUNT: usize = 8192;

// How many pairs the file has: 1 word.
pub const PAIR_COUNT: usize = 8193;

// The sentinel's handle, or ffffffff: 1 word.
pub const SENTINEL: usize = 8194;

// Open pairs: the pair's number, doubled, and 1 where its right side is still to come: 4,096 words.
pub const OPEN: usize = 8195;

// The stack of entries, the top last: 4,097 words.
pub const STACK: usize = 12291;

// For each place of the stack what TOPS held before it was pushed: 4,097 words.
pub const BELOW: usize = 16388;

// For each entry one more than its highest place on the stack, or 0: 3,072 words.
pub const TOPS: usize = 20485;

// A bit for each entry that is marked written: 96 words.
pub const WRITTEN: usize = 23557;

// The parents that an update moves, while the added tree is entered, two to a word: 50 words.
pub const MOVED: usize = 23653;

// For each pair of the file one more than its entry, or 0: 1,024 words.
pub const MAPS: usize = 23703;

// One more than the sentinel's latest entry, or 0: 1 word.
pub const SENTINEL_ENTRY: usize = 24727;

// How many entries there are: 1 word.
pub const USED: usize = 24728;

// How many parents each entry has: 3,072 words.
pub const COUNTS: usize = 24729;

// The key of each entry, first word: 3,072 words.
pub const LEFT: usize = 27801;

// The key of each entry, second word: 3,072 words.
pub const RIGHT: usize = 30873;

// The length of each entry, low word: 3,072 words.
pub const LOW: usize = 33945;

// The length of each entry, high word: 3,072 words.
pub const HIGH: usize = 37017;

// One more than the entry before it in the same slot, or 0: 3,072 words.
pub const NEXT: usize = 40089;

// Entries by slot: one more than the last one of the slot, or 0: 4,096 words.
pub const HEADS: usize = 43161;

// The parents, two to a word: the first two of each entry, the next two of each, .., the last two of each: 153,600 words. Only `parents` looks there. The
// 128 words before it are a gap: without it an entry's parents and its words in the tables before share a set of a processor's first cache.
const PARENTS: usize = 47385;

// Where the clearing before the steps ends: at the parents.
pub const CLEARED: usize = PARENTS;

// The search: a bit for each entry that is seen: 96 words.
pub const SEEN: usize = 200985;

// The search: for each node the node before it: 1,025 words.
pub const PREVS: usize = 201081;

// The search: for each node the entry visited, doubled, and the position bit: 1,025 words.
pub const NODES: usize = 202106;

// The search: the bits of each node: 1,025 words.
pub const LENS: usize = 203131;

// The search: three words for each path under way: node, place, extra: 9,999 words.
pub const PATHS: usize = 204156;

// Undo: sixteen copies of open pairs, stack and marks, and of the tree cache: 263,712 words.
pub const COPIES: usize = 214155;

// Not used, to the end of work: 46,421 words.
pub const FREE: usize = 477867;

// An entry of the tree cache, by its number. A handle (NodePtr) and an entry number never stand for each other. That there is such an entry is asked
// where it is needed, and is no invariant of the type: `found_by` and `Parent::entry` give one for any word, and `length_at` answers for one that isn't there.
#[derive(Clone, Copy, Debug, PartialEq, Eq)]
pub struct EntryIndex(pub u32);

// The most entries.
pub const ENTRIES: usize = 3072;

// The most parents of an entry.
pub const MAX_PARENTS: usize = 100;

// The words of one undo copy.
pub const COPY: usize = 16482;

// The slot of an entry, by the two words of its key.
pub fn slot_of(left: u32, right: u32) -> usize
    ensures { result ≡ slot_of left right }
{
    (left.wrapping_add(right) % 4096) as usize
}
