// Why a record has no answer.
use std::io;

#[derive(Debug, Drop)]
pub enum Refusal {
    // The record is cut short, its op is unknown, or its payload is not one of the op. Nothing is printed.
    BadRecord,
    // The answer could not be printed.
    Output(io::Error),
}

impl From<io::Error> for Refusal {
    fn from(error: io::Error) -> Refusal {
        Refusal::Output(error)
    }
}
