// A sheet is read into memory of this function's own, and its model is run to its end.
ghost use Rattle.sheet.specs.Reader.{read_of};
ghost use Rattle.forecast.specs.Forecast.{Forecasts};

use crate::told::modelled;
use forecast_text::ending::{ForecastError, Reached};
use sheet::read;

// What becomes of a sheet: a refusal, or the end of the run.
pub fn forecast(bytes: &[u8]) -> Result<Reached, ForecastError>
    ensures { Forecasts (read_of bytes.now) result }
{
    let mut amounts = [0u64; 32];
    let mut rates = [0u64; 64];
    let mut species = [0usize; 256];
    let heading = read(bytes, &mut amounts, &mut rates, &mut species)?;
    modelled(heading, &amounts, &rates, &species)
}
