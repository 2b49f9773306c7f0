// The answer to each op.
use crate::refusal::Refusal;
use crate::{bits, print};
use allocator::{NodePtr, ObjectType, fits_in_small_atom, small_atom};
use atom_decode::{Blob, ParseError};
use std::io::Write;

// The longest payload's bytes with their prefix.
const MAX_WRITTEN: usize = 65538;

// The atom with its prefix, made in the output's first bytes.
fn written_in<W: Write>(out: &mut W, output: &mut [u8], payload: &[u8]) -> Result<(), Refusal> {
    let Ok(written) = atom_encode::write_atom::write_atom(output, 0, payload) else {
        return Err(Refusal::BadRecord);
    };
    text::hex(out, &output[..written.next])?;
    Ok(())
}

// `w`: the atom with its prefix.
fn written<W: Write>(out: &mut W, payload: &[u8]) -> Result<(), Refusal> {
    let mut output = [0u8; MAX_WRITTEN];
    written_in(out, &mut output, payload)
}

// `l`: the number of those bytes.
fn serialized_length<W: Write>(out: &mut W, payload: &[u8]) -> Result<(), Refusal> {
    text::decimal(
        out,
        atom_encode::serialized_length::serialized_length_atom(payload),
    )?;
    Ok(())
}

// `p`: 0 and where the atom at the start is, if the bytes found are those that stand there; or why it is refused.
fn parsed<W: Write>(out: &mut W, payload: &[u8]) -> Result<(), Refusal> {
    let found = atom_decode::parse_atom(payload, 0);
    let bytes = atom_decode::parse_atom_ptr(payload, found);
    match found {
        Ok(Blob { start, end }) => {
            if payload.get(start..end) != Some(bytes) {
                return Err(Refusal::BadRecord);
            }
            write!(out, "0 {start} {end}")?;
        }
        Err(ParseError::SerializationError) => text::decimal(out, 14)?,
        Err(ParseError::NonCanonicalSerialization) => text::decimal(out, 15)?,
    }
    Ok(())
}

// `m`: the mask of a byte's highest set bit.
fn msb_mask<W: Write>(out: &mut W, payload: &[u8]) -> Result<(), Refusal> {
    let Some(byte) = payload.first() else {
        return Err(Refusal::BadRecord);
    };
    text::decimal(out, u64::from(path::traverse_path::msb_mask(*byte)))?;
    Ok(())
}

// `z`: the index of the first byte that is not 0.
fn first_non_zero<W: Write>(out: &mut W, payload: &[u8]) -> Result<(), Refusal> {
    text::decimal(out, path::traverse_path::first_non_zero(payload) as u64)?;
    Ok(())
}

// `s`: the value of the small atom, if it is one.
fn small_value<W: Write>(out: &mut W, payload: &[u8]) -> Result<(), Refusal> {
    match fits_in_small_atom::fits_in_small_atom(payload) {
        Some(value) => text::decimal(out, u64::from(value))?,
        None => print::none(out)?,
    }
    Ok(())
}

// The number of a payload of four bytes, the highest first.
fn number(payload: &[u8]) -> Result<u32, Refusal> {
    match *payload {
        [a, b, c, d] => Ok(u32::from_be_bytes([a, b, c, d])),
        _ => Err(Refusal::BadRecord),
    }
}

// `v`: a small atom's length and its bytes.
fn small_atom<W: Write>(out: &mut W, payload: &[u8]) -> Result<(), Refusal> {
    let value = number(payload)?;
    if 1 << NodePtr::IDX_BITS <= value {
        return Err(Refusal::BadRecord);
    }
    let atom = small_atom::small_atom_bytes(value);
    write!(out, "{} ", small_atom::len_for_value(value))?;
    text::hex(out, atom.as_ref())?;
    Ok(())
}

// `o`: a handle's kind and its index.
fn handle<W: Write>(out: &mut W, payload: &[u8]) -> Result<(), Refusal> {
    let node = NodePtr(number(payload)?);
    let kind = match node.object_type() {
        ObjectType::Pair => 0,
        ObjectType::Bytes => 1,
        ObjectType::SmallAtom => 2,
        ObjectType::Unknown => return Err(Refusal::BadRecord),
    };
    write!(out, "{kind} {}", node.index())?;
    Ok(())
}

// The answer to an op.
pub fn answer<W: Write>(out: &mut W, op: u8, payload: &[u8]) -> Result<(), Refusal> {
    match op {
        b'w' => written(out, payload),
        b'l' => serialized_length(out, payload),
        b'p' => parsed(out, payload),
        b'm' => msb_mask(out, payload),
        b'z' => first_non_zero(out, payload),
        b'b' => bits::path_of_bits(out, payload),
        b's' => small_value(out, payload),
        b'v' => small_atom(out, payload),
        b'o' => handle(out, payload),
        b't' => bits::visits(out, payload),
        _ => Err(Refusal::BadRecord),
    }
}
