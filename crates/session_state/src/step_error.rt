// Why a run ends at a step: questions 9 to 13, and 17.
ghost use Rattle.std.specs.Prelude.{◌≡◌};
ghost use Rattle.session_state.specs.Errors.{number_of, number_in};
ghost use Rattle.session_state.specs.declared.step_error.StepError.TheVariants.{Add};

use write_place::AddError;

#[derive(Clone, Copy, Debug, PartialEq, Eq)]
pub enum StepError {
    // 9: the session is finished.
    Finished,
    // 10: there are sixteen adds on the present history.
    TooManyAdds,
    // 11: there is no such add on it.
    NoSuchAdd,
    // 12 and 13.
    Add(AddError),
    // 17: no quote is open.
    NoQuote,
}

impl From<AddError> for StepError {
    ghost from_gives = { λ error e. e ≡ Add error };

    fn from(error: AddError) -> StepError {
        StepError::Add(error)
    }
}

// The question's number.
impl From<StepError> for u32 {
    ghost from_gives = { λ error number. number ≡ number_of error };

    fn from(error: StepError) -> u32 {
        match error {
            StepError::Finished => 9,
            StepError::TooManyAdds => 10,
            StepError::NoSuchAdd => 11,
            StepError::Add(error) => u32::from(error),
            StepError::NoQuote => 17,
        }
    }
}

// The number that a run ends with: 0 at the end of the file.
pub fn number(end: Result<(), StepError>) -> u32
    ensures { result ≡ number_in end }
{
    match end {
        Ok(()) => 0,
        Err(error) => u32::from(error),
    }
}
