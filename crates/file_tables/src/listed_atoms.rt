// The file's listed atoms where they lie in the file: slot, length, equality.
ghost use Rattle.std.specs.Prelude.{◌≡◌, ◌<◌, ◌≤◌, length};
ghost use Rattle.words.specs.Words.{WORK};
ghost use Rattle.words.specs.Lists.{same};
ghost use Rattle.atom.specs.Write.{serialized_length};
ghost use Rattle.work_layout.specs.Rows.{start_of, end_of, atom_bytes};
ghost use Rattle.file_tables.specs.Listed.{Inside, slot_of};

use atom_encode::serialized_length::serialized_length_atom;

// The slot of an atom's bytes, from a sum that wraps.
fn slot_of(bytes: &[u8]) -> usize
    ensures { result ≡ slot_of bytes.now }
{
    let mut sum: u32 = 0;
    for byte in bytes {
        let twice = sum.wrapping_add(sum);
        sum = twice.wrapping_add(u32::from(*byte));
    }
    (sum % 1021) as usize
}

// Where the bytes of listed atom i start.
pub fn start_of(work: &[u32], i: usize) -> usize
    requires { (WORK ≤ length work.now) × (i < 1024) }
    ensures { result ≡ start_of work.now i }
{
    work[work_layout::ATOMS + 2 * i] as usize
}

// Where they end.
pub fn end_of(work: &[u32], i: usize) -> usize
    requires { (WORK ≤ length work.now) × (i < 1024) }
    ensures { result ≡ end_of work.now i }
{
    work[work_layout::ATOMS + 2 * i + 1] as usize
}

// The bytes of listed atom i, where they lie in the file.
pub fn bytes_of<'a>(work: &[u32], file: &'a [u8], i: usize) -> &'a [u8]
    requires { (WORK ≤ length work.now) × (i < 1024) × (Inside file.now work.now i) }
    ensures { result.now ≡ atom_bytes file.now work.now i }
{
    let start = start_of(work, i);
    let end = end_of(work, i);
    &file[start..end]
}

// The slot of atom i.
pub fn slot_at(work: &[u32], file: &[u8], i: usize) -> usize
    requires { (WORK ≤ length work.now) × (i < 1024) × (Inside file.now work.now i) }
    ensures { result ≡ slot_of (atom_bytes file.now work.now i) }
{
    slot_of(bytes_of(work, file, i))
}

// The serialized length of atom i.
pub fn length_at(work: &[u32], file: &[u8], i: usize) -> u32
    requires { (WORK ≤ length work.now) × (i < 1024) × (Inside file.now work.now i) × (length file.now ≤ 65535) }
    ensures { result ≡ serialized_length (atom_bytes file.now work.now i) }
{
    serialized_length_atom(bytes_of(work, file, i)) as u32
}

// Whether atoms i and j have the same bytes. They are compared where they lie.
pub fn same_atoms(work: &[u32], file: &[u8], i: usize, j: usize) -> bool
    requires { (WORK ≤ length work.now) × (i < 1024) × (j < 1024) × (Inside file.now work.now i) × (Inside file.now work.now j) }
    ensures { result ≡ same (atom_bytes file.now work.now i) (atom_bytes file.now work.now j) }
{
    words::same_bytes(bytes_of(work, file, i), bytes_of(work, file, j))
}
