// de_br.rs: the reader's Cursor, the input and a position in it; what stands at a place of the input.
#![tactic(auto)]

ghost use Rattle.std.specs.Prelude.{◌≡◌, ◌+◌, ◌<◌, ◌^◌, slice_get};
ghost use Rattle.atom.specs.Parse.{parse_at};
ghost use Rattle.atom_decode.specs.Answers.{parse_of};
ghost use Rattle.read_cursor.specs.Heads.{head_at, there_of};

use atom::{BACK_REFERENCE, CONS_BOX_MARKER};
use atom_decode::{Blob, ParseError};

// A place of the input.
#[derive(Clone, Copy, Debug, PartialEq, Eq)]
pub struct Cursor<'a> {
    pub input: &'a [u8],
    pub position: usize,
}

impl<'a> Cursor<'a> {
    // The byte at the cursor, if there is one.
    fn read_byte(self) -> Option<u8>
        ensures { result ≡ slice_get self.entry.input.now self.entry.position }
    {
        self.input.get(self.position).copied()
    }

    // The cursor that many bytes further on.
    fn advance(self, count: usize) -> Cursor<'a>
        requires { self.position + count < 2 ^ 64 }
        ensures { (result.input ≡ self.entry.input) × (result.position ≡ self.entry.position + count) }
    {
        Cursor {
            input: self.input,
            position: self.position + count,
        }
    }

    // The atom or path at the cursor.
    fn parse_atom(self) -> Result<Blob, ParseError>
        ensures { parse_of result ≡ parse_at self.entry.input.now self.entry.position }
    {
        atom_decode::parse_atom(self.input, self.position)
    }
}

// What stands at a place: a pair's mark, a reference with its path, or an atom. Three kinds, so no Option or Result: a refused parse is an Err inside.
#[derive(Clone, Copy, Debug, PartialEq, Eq)]
pub enum Head {
    Pair,
    Path(Result<Blob, ParseError>),
    Atom(Result<Blob, ParseError>),
}

// What stands at a place of the input, if a byte does. A reference's path is parsed after its mark.
#[tactic(auto, using(crate::proofs::Steps::head_steps))]
pub fn head_at(input: &[u8], position: usize) -> Option<Head>
    ensures { there_of result ≡ head_at input.now position }
{
    let c = Cursor { input, position };
    Some(match c.read_byte()? {
        CONS_BOX_MARKER => Head::Pair,
        BACK_REFERENCE => Head::Path(c.advance(1).parse_atom()),
        _ => Head::Atom(c.parse_atom()),
    })
}
