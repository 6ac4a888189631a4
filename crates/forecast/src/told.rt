// The model of a sheet, run, and what is told of it.
ghost use Rattle.std.specs.Prelude.{◌≡◌};
ghost use Rattle.state.specs.Result.{result_of};
ghost use Rattle.forecast.specs.Told.{outcome_from, Over, Ends, Told};

use crate::task::{amounts_from, rates_from, task_from};
use forecast_text::ending::{ForecastError, Reached};
use model_run::run::{TaskOutcome, run};
use sheet::sheet::Heading;
use state::run::{Run, Status};
use state::talk::{Blame, IntegrationResult};

// Stands where no run that has ended comes: of its run, which has a result, the caller shows that it isn't called.
fn never(run: Run) -> IntegrationResult
    requires { result_of run ≡ None }
{
    let numbers = run.numbers;
    let counts = run.counts;
    IntegrationResult {
        h: numbers.h,
        x: numbers.x,
        status: Status::StepSizeTooSmall,
        counts,
        blame: Blame::Untold,
        smallest: 0.0,
        largest: 0.0,
    }
}

// The result of a run that has ended.
fn end_of(run: Run) -> IntegrationResult
    requires { Over run }
    ensures { result_of run ≡ Some result }
{
    match run.result() {
        Some(end) => end,
        None => never(run),
    }
}

// What is told of an outcome for n amounts.
fn told(n: usize, outcome: TaskOutcome) -> Result<Reached, ForecastError>
    requires { Ends outcome.finish }
    ensures { Told n outcome.finish outcome.amounts result }
{
    let amounts = outcome.amounts;
    match outcome.finish {
        Err(refusal) => Err(ForecastError::Opening(refusal)),
        Ok(run) => Ok(Reached {
            result: end_of(run),
            species: n,
            amounts,
        }),
    }
}

// The model of a sheet that was read, run to its end.
pub fn modelled(
    heading: Heading,
    amounts: &[u64; 32],
    rates: &[u64; 64],
    species: &[usize; 256],
) -> Result<Reached, ForecastError>
    ensures { let o = outcome_from heading amounts.now rates.now species.now in
        Told heading.species o.finish o.amounts result }
{
    let speeds = rates_from(rates);
    let task = task_from(heading, amounts_from(amounts));
    told(heading.species, run(task, &speeds, species))
}
