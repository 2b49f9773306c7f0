// Reading an atom or a path. It is handed on as a part of the input.
#![tactic(auto)]

mod decode_size;

ghost use Rattle.std.specs.Prelude.{◌≡◌, ◌+◌, ◌≤◌, cond, ltb, length};
ghost use Rattle.atom.specs.Parse.{parse_at, blob_of, blob, refused};
ghost use Rattle.atom_decode.specs.Answers.{parse_of};

use decode_size::{DecodedSize, decode_size_with_offset};

const MAX_SINGLE_BYTE: u8 = 0x7f;

// Why an atom is refused.
#[derive(Clone, Copy, Debug, PartialEq, Eq)]
pub enum ParseError {
    SerializationError,
    NonCanonicalSerialization,
}

// An atom: its bytes are those from `start` up to `end`.
#[derive(Clone, Copy, Debug, PartialEq, Eq)]
pub struct Blob {
    pub start: usize,
    pub end: usize,
}

// The atom or path at a place of the input.
pub fn parse_atom(input: &[u8], position: usize) -> Result<Blob, ParseError>
    ensures { parse_of result ≡ parse_at input.now position }
{
    if input.len() <= position {
        return Err(ParseError::SerializationError);
    }
    if input[position] <= MAX_SINGLE_BYTE {
        return Ok(Blob {
            start: position,
            end: position + 1,
        });
    }
    let DecodedSize { offset, size } = decode_size_with_offset(input, position)?;
    whole_atom(input, position + offset, size)
}

// The bytes of an atom of this size that begin at `start`.
fn whole_atom(input: &[u8], start: usize, size: u64) -> Result<Blob, ParseError>
    requires { start ≤ length input.now }
    ensures { parse_of result ≡ cond (ltb (length input.now) (start + size)) (refused 14) (blob start (start + size)) }
{
    let left = (input.len() - start) as u64;
    if left < size {
        return Err(ParseError::SerializationError);
    }
    Ok(Blob {
        start,
        end: start + (size as usize),
    })
}

// The found atom or path, as a part of the input; no bytes where it was refused or the input lacks them.
pub fn parse_atom_ptr(input: &[u8], found: Result<Blob, ParseError>) -> &[u8]
    ensures { result.now ≡ blob_of input.now (parse_of found) }
{
    match found {
        Ok(Blob { start, end }) => input.get(start..end).unwrap_or(&[]),
        Err(ParseError::SerializationError) => &[],
        Err(ParseError::NonCanonicalSerialization) => &[],
    }
}
