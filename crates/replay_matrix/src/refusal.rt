// Why a routine refuses, whichever it is.
use dense::InterpolationError;
use matrix::{DecompositionError, SolveError};

#[derive(Clone, Copy)]
pub enum Refusal {
    Order,
    Length,
    // The column in which the elimination stopped.
    Singular(usize),
    Pivot,
    ShortTarget,
}

// Document 01's number of a singular matrix.
pub const SINGULAR: u64 = 17;

impl Refusal {
    // Document 01's number.
    pub fn number(self) -> u64 {
        match self {
            Refusal::Order => 1,
            Refusal::Length => 16,
            Refusal::Singular(_) => SINGULAR,
            Refusal::Pivot => 18,
            Refusal::ShortTarget => 19,
        }
    }
}

impl From<DecompositionError> for Refusal {
    fn from(error: DecompositionError) -> Refusal {
        match error {
            DecompositionError::Order => Refusal::Order,
            DecompositionError::Length => Refusal::Length,
            DecompositionError::Singular(column) => Refusal::Singular(column),
        }
    }
}

impl From<SolveError> for Refusal {
    fn from(error: SolveError) -> Refusal {
        match error {
            SolveError::Order => Refusal::Order,
            SolveError::Length => Refusal::Length,
            SolveError::Pivot => Refusal::Pivot,
        }
    }
}

impl From<InterpolationError> for Refusal {
    fn from(error: InterpolationError) -> Refusal {
        match error {
            InterpolationError::ShortTarget => Refusal::ShortTarget,
        }
    }
}
