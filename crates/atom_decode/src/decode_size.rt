// The prefix of an atom or a path, read: how many bytes it takes, and the size that it carries.
ghost use Rattle.std.specs.Prelude.{◌≡◌, ◌≤◌, ◌<◌, length, get_or, drop};
ghost use Rattle.atom.specs.Parse.{one_byte, decode_size};
ghost use Rattle.atom_decode.specs.decode_size.Answers.{decoded_size};

use crate::ParseError;
use atom::{SIZE_LIMIT, least_size};

// A prefix: how many bytes it takes, and the size that it carries.
#[derive(Clone, Copy, Debug, PartialEq, Eq)]
pub struct DecodedSize {
    pub offset: usize,
    pub size: u64,
}

// A prefix that carries the size 1: the byte has to follow, and not be one that stands for itself.
fn one_byte(input: &[u8], position: usize, offset: usize) -> Result<DecodedSize, ParseError>
    ensures { decoded_size result ≡ one_byte offset (drop position input.now) }
{
    if input.len() <= position {
        return Err(ParseError::SerializationError);
    }
    if input[position] < 0x80 {
        return Err(ParseError::NonCanonicalSerialization);
    }
    Ok(DecodedSize { offset, size: 1 })
}

// The prefix at a place whose byte is no single one.
pub fn decode_size_with_offset(input: &[u8], position: usize) -> Result<DecodedSize, ParseError>
    requires { (position < length input.now) × (0x80 ≤ get_or input.now position 0) }
    ensures { decoded_size result ≡ decode_size (drop position input.now) }
{
    let byte = input[position];
    let width = byte.leading_ones() as usize;
    if 6 < width {
        return Err(ParseError::SerializationError);
    }
    if input.len() - position < width {
        return Err(ParseError::SerializationError);
    }
    let rest = byte & (0xff >> width);
    let size = words::number_at(input, position + 1, width - 1, rest);
    if SIZE_LIMIT <= size {
        return Err(ParseError::SerializationError);
    }
    if size < least_size(width) {
        return Err(ParseError::NonCanonicalSerialization);
    }
    if size == 1 {
        return one_byte(input, position + width, width);
    }
    Ok(DecodedSize {
        offset: width,
        size,
    })
}
