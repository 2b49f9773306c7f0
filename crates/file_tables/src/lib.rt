// The tables of the listed atoms in work: for each atom the first one with the same bytes, and its serialized length.
#![tactic(auto)]

pub mod listed_atoms;

ghost use Rattle.std.specs.Prelude.{◌≡◌, ℕ, ◌+◌, ◌<◌, ◌≤◌, length};
ghost use Rattle.work_layout.specs.Rows.{atom_bytes};
ghost use Rattle.file_tables.specs.Listed.{Inside, slot_of};
ghost use Rattle.file_tables.specs.Load.{Ready, Kept, Loaded};
ghost use Rattle.file_tables.specs.Chains.{first_of, Loading};

// The first atom with the bytes of atom i, where all atoms before i are loaded; i itself where none of them has its bytes.
fn find_first(work: &[u32], file: &[u8], i: usize, slot: usize) -> usize
    requires { (i < 1024)
        × (slot ≡ slot_of (atom_bytes file.now work.now i))
        × (Loading (atom_bytes file.now work.now) work.now i)
        × ((k : ℕ) → k < i + 1 → Inside file.now work.now k) }
    ensures { result ≡ first_of (atom_bytes file.now work.now) i }
{
    let mut head = work[work_layout::ATOM_HEADS + slot] as usize;
    while head != 0 {
        let j = head - 1;
        if listed_atoms::same_atoms(work, file, j, i) {
            return j;
        }
        head = work[work_layout::ATOM_NEXT + j] as usize;
    }
    i
}

// The tables of atom i, where all atoms before it are loaded. If it is the first one with its bytes, it goes to the front of its chain.
fn load_atom(work: &mut [u32], file: &[u8], i: usize)
    requires { (i < 1024)
        × (length file.now ≤ 65535)
        × (Loading (atom_bytes file.now work.old) work.old i)
        × ((k : ℕ) → k < i + 1 → Inside file.now work.old k) }
    ensures { (Loading (atom_bytes file.now work.old) work.new (i + 1))
        × (Kept work.old work.new) }
{
    let slot = listed_atoms::slot_at(work, file, i);
    let first = find_first(work, file, i, slot);
    let size = listed_atoms::length_at(work, file, i);
    let head = work[work_layout::ATOM_HEADS + slot];
    work[work_layout::FIRST + i] = first as u32;
    work[work_layout::ATOM_LENGTHS + i] = size;
    if first != i {
        return;
    }
    work[work_layout::ATOM_NEXT + i] = head;
    work[work_layout::ATOM_HEADS + slot] = (i + 1) as u32;
}

// The tables of the first `count` atoms.
pub fn load_firsts(work: &mut [u32], file: &[u8], count: usize)
    requires { Ready file.now work.old count }
    ensures { Loaded file.now work.old work.new count }
{
    for i in 0..count {
        load_atom(work, file, i);
    }
}
