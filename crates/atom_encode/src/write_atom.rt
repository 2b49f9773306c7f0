// An atom goes into the output.
ghost use Rattle.std.specs.Prelude.{◌≡◌};
ghost use Rattle.atom.specs.Prefix.{encode};
ghost use Rattle.atom.specs.Write.{put};
ghost use Rattle.atom_encode.specs.Answers.{written, WidthTold};

use crate::write_prefix::write_prefix;
use words::slices;

// Where the next byte goes, and the width of the atom's prefix.
#[derive(Clone, Copy, Debug, PartialEq, Eq)]
pub struct Written {
    pub next: usize,
    pub width: usize,
}

// The output ends too early; or no prefix holds the atom's size.
#[derive(Clone, Copy, Debug, PartialEq, Eq)]
pub enum WriteError {
    Full,
    TooLong,
}

// The bytes of an atom, from `position` on. Where they don't fit, the output stays as it is.
pub fn write_atom(output: &mut [u8], position: usize, atom: &[u8]) -> Result<Written, WriteError>
    ensures { (written result output.new ≡ put output.old position (encode atom.now))
        × (WidthTold atom.now result) }
{
    let width = atom::prefix_width(atom).ok_or(WriteError::TooLong)?;
    let total = width + atom.len();
    if output.len() < total {
        return Err(WriteError::Full);
    }
    if output.len() - total < position {
        return Err(WriteError::Full);
    }
    write_prefix(output, position, width, atom.len() as u64);
    slices::copy_bytes(atom, output, position + width);
    Ok(Written {
        next: position + total,
        width,
    })
}
