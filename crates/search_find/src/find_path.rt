// find_path of tree_cache.rs, over work: the path that the search gives, and whether it is used.
ghost use Rattle.std.specs.Prelude.{◌≡◌, Bool, List, ◌≤◌, ◌<◌, length};
ghost use Rattle.words.specs.Words.{at};
ghost use Rattle.path.specs.Measure.{measure_of};
ghost use Rattle.spec_search.specs.PathBits.{Ends};
ghost use Rattle.work_layout.specs.Layout.{USED, ENTRIES};
ghost use Rattle.work_layout.specs.Rows.{Tops, Sound, all_counts};
ghost use Rattle.search_find.specs.Answers.{FoundPath};

use path::Measure;
use work_layout::EntryIndex;

// The bytes that a path of n bits, the first of which is set, is measured at.
fn measured_bits(measure: Measure, n: usize) -> u64
    requires { n ≤ 8192 }
    ensures { (bits : List Bool) → n ≡ length bits → Ends bits → result ≡ measure_of measure bits }
{
    u64::from(path_builder::measured_bytes(measure, ((n + 7) / 8) as u32, n % 8 == 0))
}

// The slot of the path to entry e, where it is shorter than what it stands for.
pub fn find_path(
    work: &mut [u32],
    e: EntryIndex,
    len: u64,
    depth: usize,
    measure: Measure,
) -> Option<usize>
    requires { (Sound work.old) × (Tops work.old depth) × (all_counts work.old ENTRIES ≤ 2048) × (e.0 < at work.old USED) }
    ensures { FoundPath measure work.old work.new depth len e.0 result }
{
    let Some(slot) = search_passes::search(work, e, len, depth) else {
        return None;
    };
    if measured_bits(measure, search_list::size_of(work, slot)) < len {
        return Some(slot);
    }
    None
}
