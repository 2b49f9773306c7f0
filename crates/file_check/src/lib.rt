// The check of the session file: questions 2 to 8.
#![tactic(auto)]

mod file_atoms;
mod file_handles;

ghost use Rattle.std.specs.Prelude.{◌≡◌, ◌≤◌, length, take, drop};
ghost use Rattle.words.specs.Lists.{same};
ghost use Rattle.spec_session.specs.File.{version_1, mark, after_mark as what_follows, file as whole_file};
ghost use Rattle.file_parts.specs.Checked.{Checks};

use file_handles::Listed;
use file_parts::{Checked, FileError};

// The most bytes, atoms and pairs of a file.
const FILE_BYTES: usize = 65535;

const ATOMS: u32 = 1024;

const PAIRS: u32 = 1024;

// Whether the file begins with the mark and version 1.
fn has_mark(file: &[u8]) -> bool
    ensures { result ≡ same (take 5 file.now) (mark version_1) }
{
    file.starts_with(b"BRS\x00\x01")
}

// The file after its mark.
fn after_mark(file: &[u8]) -> Result<Checked, FileError>
    requires { (5 ≤ length file.now) × (length file.now ≤ 65535) }
    ensures { Checks file.now result (what_follows version_1 (drop 5 file.now)) }
{
    let atom_count = file_atoms::count(&file[5..], ATOMS)?;
    let atoms = file_atoms::atoms(atom_count.rest, atom_count.value)?;
    let pair_count = file_atoms::count(atoms.rest, PAIRS)?;
    let listed = Listed {
        atoms: atoms.value,
        pairs: pair_count.value,
    };
    let pairs = file_handles::pairs(pair_count.rest, listed)?;
    let sentinel = file_handles::sentinel(pairs.rest, listed)?;
    file_handles::steps(sentinel.rest, listed)?;
    Ok(Checked {
        atoms: listed.atoms,
        pairs: listed.pairs,
        sentinel: sentinel.value,
        pairs_at: file.len() - pair_count.rest.len(),
        steps_at: file.len() - sentinel.rest.len(),
    })
}

// Questions 2 to 8, of the whole file.
pub fn check(file: &[u8]) -> Result<Checked, FileError>
    ensures { Checks file.now result (whole_file version_1 file.now) }
{
    if FILE_BYTES < file.len() {
        return Err(FileError::InputTooLong);
    }
    if !has_mark(file) {
        return Err(FileError::BadMark);
    }
    after_mark(file)
}
