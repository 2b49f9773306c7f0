// Why a tree is not read, and the numbers that the reading call answers then.
use atom_decode::ParseError;

#[derive(Clone, Copy, Debug, PartialEq, Eq)]
pub enum ReadError {
    // The input ends too early, goes on too long, or has a size that is out of range.
    SerializationError,
    // A size is not in its shortest form.
    NonCanonicalSerialization,
    // A path steps into an atom.
    PathIntoAtom,
}

impl From<ParseError> for ReadError {
    ghost use Rattle.std.specs.Prelude.{◌≡◌};
    ghost use Rattle.atom_decode.specs.Answers.{number as parse_number};
    ghost use Rattle.read_item.specs.Refusals.{number};

    ghost from_gives = { λ refused error. number error ≡ parse_number refused };

    fn from(refused: ParseError) -> ReadError {
        match refused {
            ParseError::SerializationError => ReadError::SerializationError,
            ParseError::NonCanonicalSerialization => ReadError::NonCanonicalSerialization,
        }
    }
}

impl From<read_path::PathIntoAtom> for ReadError {
    ghost use Rattle.std.specs.Prelude.{◌≡◌};
    ghost use Rattle.read_item.specs.Refusals.{number};

    ghost from_gives = { λ _ error. number error ≡ 16 };

    fn from(_into: read_path::PathIntoAtom) -> ReadError {
        ReadError::PathIntoAtom
    }
}

impl From<ReadError> for u32 {
    ghost use Rattle.std.specs.Prelude.{◌≡◌};
    ghost use Rattle.read_item.specs.Refusals.{number};

    ghost from_gives = { λ error answered. answered ≡ number error };

    fn from(error: ReadError) -> u32 {
        match error {
            ReadError::SerializationError => 14,
            ReadError::NonCanonicalSerialization => 15,
            ReadError::PathIntoAtom => 16,
        }
    }
}
