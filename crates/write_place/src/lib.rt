// incremental.rs: where the loop that writes stands, and how it ends.
#![tactic(auto)]

ghost use Rattle.std.specs.Prelude.{◌≡◌};
ghost use Rattle.write_place.specs.Numbers.{question_of};

use write_counts::Counts;

// How many pairs are open, how many entries stand on the stack, and what is counted of the items written.
#[derive(Clone, Copy, Debug, PartialEq, Eq)]
pub struct Place {
    pub opens: usize,
    pub depth: usize,
    pub counts: Counts,
}

// What an add is refused for: too many pairs are open; the output has no room for the whole item.
#[derive(Clone, Copy, Debug, PartialEq, Eq)]
pub enum AddError {
    TooManyOpen,
    OutputFull,
}

// The question's number.
impl From<AddError> for u32 {
    ghost from_gives = { λ error number. number ≡ question_of error };

    fn from(error: AddError) -> u32 {
        match error {
            AddError::TooManyOpen => 12,
            AddError::OutputFull => 13,
        }
    }
}

// The loop was refused at this place.
#[derive(Clone, Copy, Debug, PartialEq, Eq)]
pub struct Refused {
    pub error: AddError,
    pub place: Place,
}

// All is written; the loop stands at the open place.
#[derive(Clone, Copy, Debug, PartialEq, Eq)]
pub enum Outcome {
    Done(Place),
    Stopped(Place),
}
