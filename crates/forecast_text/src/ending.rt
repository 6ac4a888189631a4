// What became of a sheet.
ghost use Rattle.std.specs.Prelude.{◌≡◌};
ghost use Rattle.forecast_text.specs.Unread.{unread};

use sheet::sheet::SheetError;
use state::talk::{IntegrationResult, Refusal};

// The end of a run: its result, how many amounts there are, and the amounts, in the first of the room for them.
#[derive(Clone, Copy)]
pub struct Reached {
    pub result: IntegrationResult,
    pub species: usize,
    pub amounts: [f64; 32],
}

// Why a sheet has no run.
#[derive(Clone, Copy)]
pub enum ForecastError {
    // The opening was refused.
    Opening(Refusal),
    // The sheet is malformed, and this is its first wrong line, from 1.
    Malformed(usize),
    // The sheet has more than 4,096 bytes.
    TooLong,
}

impl From<SheetError> for ForecastError {
    ghost from_gives = { λ x e. e ≡ unread x };

    fn from(error: SheetError) -> Self {
        match error {
            SheetError::Malformed(line) => ForecastError::Malformed(line),
            SheetError::TooLong => ForecastError::TooLong,
        }
    }
}
