// The session file's numbers, counts and atoms, each at the front of what is left of the file: its value and what is left then, or the question that gets no.
ghost use Rattle.std.specs.Prelude.{◌≡◌, [], ◌≤◌};
ghost use Rattle.spec_session.specs.File.{version_1};
ghost use Rattle.spec_session.specs.File as file_format;
ghost use Rattle.file_parts.specs.Answers.{Answers, itself, sized, counted, atom_of};

use allocator::fits_in_small_atom;
use file_parts::{FileError, Part, session_file};

// The most atom bytes.
const ATOM_BYTES: u32 = 32768;

// A number of `count` bytes.
pub fn field(rest: &[u8], count: usize) -> Result<Part<'_>, FileError>
    requires { count ≤ 4 }
    ensures { Answers itself result (file_format.field count rest.now) }
{
    if rest.len() < count {
        return Err(FileError::FieldCut);
    }
    Ok(Part {
        value: session_file::number_at(rest, 0, count),
        rest: &rest[count..],
    })
}

// A count of at most `most`.
pub fn count(rest: &[u8], most: u32) -> Result<Part<'_>, FileError>
    ensures { Answers itself result (file_format.count 2 most rest.now) }
{
    let n = field(rest, 2)?;
    if most < n.value {
        return Err(FileError::TooMany);
    }
    Ok(n)
}

// An atom of `size` bytes, where `used` atom bytes are there already.
fn atom_bytes(rest: &[u8], size: u32, used: u32) -> Result<Part<'_>, FileError>
    requires { used ≤ 32768 }
    ensures { Answers sized result (atom_of used size rest.now) }
{
    let n = size as usize;
    let left = rest.len();
    let room = ATOM_BYTES - used;
    if left < n {
        return Err(FileError::FieldCut);
    }
    if room < size {
        return Err(FileError::TooMany);
    }
    if fits_in_small_atom::fits_in_small_atom(&rest[..n]).is_some() {
        return Err(FileError::SmallAtomListed);
    }
    Ok(Part {
        value: size,
        rest: &rest[n..],
    })
}

// An atom: its length and its bytes are one field.
fn atom(rest: &[u8], used: u32) -> Result<Part<'_>, FileError>
    requires { used ≤ 32768 }
    ensures { Answers sized result (file_format.atom version_1 used rest.now) }
{
    let n = field(rest, 2)?;
    atom_bytes(n.rest, n.value, used)
}

// So many atoms.
pub fn atoms(rest: &[u8], count: u32) -> Result<Part<'_>, FileError>
    ensures { Answers counted result (file_format.atoms version_1 count 0 [] rest.now) }
{
    let mut next = rest;
    let mut used: u32 = 0;
    for _ in 0..count {
        let a = atom(next, used)?;
        next = a.rest;
        used += a.value;
    }
    Ok(Part {
        value: count,
        rest: next,
    })
}
