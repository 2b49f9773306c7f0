// The session file's handles, pairs, sentinel and steps, each at the front of what is left of the file: its value and what is left then, or the question that
// gets no.
ghost use Rattle.std.specs.Prelude.{◌≡◌, [], length};
ghost use Rattle.allocator.specs.Handle.{node_of};
ghost use Rattle.spec_session.specs.File as file_format;
ghost use Rattle.file_parts.specs.Answers.{Answers, itself, pair_word, counted, operand_word};
ghost use Rattle.spec_session.specs.Sentinel.{sentinel_word};

use crate::file_atoms;
use allocator::{NodePtr, ObjectType};
use file_parts::{FileError, Part};

// The most steps.
const STEPS: u32 = 1024;

// For none, as the file has it, and work too: so the sentinel stays a word.
const NO_SENTINEL: u32 = 0xffffffff;

// So many atoms and pairs are listed.
#[derive(Clone, Copy, Debug, PartialEq, Eq)]
pub struct Listed {
    pub atoms: u32,
    pub pairs: u32,
}

impl Listed {
    // Whether a handle names one of them, or a small atom.
    fn names(self, node: NodePtr) -> bool
        ensures { result ≡ file_format.named self.atoms self.pairs (node_of node.0) }
    {
        match node.object_type() {
            ObjectType::Pair => node.index() < self.pairs,
            ObjectType::Bytes => node.index() < self.atoms,
            ObjectType::SmallAtom => true,
            ObjectType::Unknown => false,
        }
    }
}

// A handle.
fn handle(rest: &[u8], listed: Listed) -> Result<Part<'_>, FileError>
    ensures { Answers itself result (file_format.handle listed.atoms listed.pairs rest.now) }
{
    let h = file_atoms::field(rest, 4)?;
    if !listed.names(NodePtr(h.value)) {
        return Err(FileError::BadHandle);
    }
    Ok(h)
}

// A pair's two handles, where so many pairs are there already. The right one is the value.
fn pair(rest: &[u8], listed: Listed) -> Result<Part<'_>, FileError>
    ensures { Answers pair_word result (file_format.one_pair listed.atoms listed.pairs rest.now) }
{
    let left = handle(rest, listed)?;
    handle(left.rest, listed)
}

// So many pairs, after the atoms.
pub fn pairs(rest: &[u8], listed: Listed) -> Result<Part<'_>, FileError>
    ensures { Answers counted result (file_format.pairs listed.atoms listed.pairs [] rest.now) }
{
    let mut next = rest;
    for done in 0..listed.pairs {
        let earlier = Listed {
            pairs: done,
            ..listed
        };
        let p = pair(next, earlier)?;
        next = p.rest;
    }
    Ok(Part {
        value: listed.pairs,
        rest: next,
    })
}

// The sentinel's handle, or none.
pub fn sentinel(rest: &[u8], listed: Listed) -> Result<Part<'_>, FileError>
    ensures { Answers sentinel_word result (file_format.sentinel listed.atoms listed.pairs rest.now) }
{
    let h = file_atoms::field(rest, 4)?;
    if h.value == NO_SENTINEL {
        return Ok(h);
    }
    if !listed.names(NodePtr(h.value)) {
        return Err(FileError::BadHandle);
    }
    Ok(h)
}

// The operand of a step's code.
fn operand(rest: &[u8], listed: Listed, code: u32) -> Result<Part<'_>, FileError>
    ensures { Answers operand_word result (file_format.operand listed.atoms listed.pairs code rest.now) }
{
    match code {
        1 | 4 => handle(rest, listed),
        2 | 3 => file_atoms::field(rest, 2),
        5 => Ok(Part { value: 0, rest }),
        _ => Err(FileError::UnknownStep),
    }
}

// A step, where `done` steps are there already. It is counted at its code.
fn step(rest: &[u8], listed: Listed, done: u32) -> Result<Part<'_>, FileError>
    ensures { Answers operand_word result (file_format.one_step listed.atoms listed.pairs done 1024 rest.now) }
{
    let code = file_atoms::field(rest, 1)?;
    if STEPS <= done {
        return Err(FileError::TooMany);
    }
    operand(code.rest, listed, code.value)
}

// The steps, to the end of the file.
pub fn steps(rest: &[u8], listed: Listed) -> Result<Part<'_>, FileError>
    ensures { Answers counted result
        (file_format.steps (length rest.now) listed.atoms listed.pairs 1024 [] rest.now) }
{
    let mut next = rest;
    let mut done: u32 = 0;
    while !next.is_empty() {
        let s = step(next, listed, done)?;
        next = s.rest;
        done += 1;
    }
    Ok(Part {
        value: done,
        rest: next,
    })
}
