// The task of a sheet that was read.
ghost use Rattle.std.specs.Prelude.{◌≡◌, map};
ghost use Rattle.words.specs.Words.{double};
ghost use Rattle.forecast.specs.Forecast.{settings_of};
ghost use Rattle.forecast.specs.Told.{task_from};

use bits::double;
use model_run::run::Task;
use sheet::sheet::Heading;
use state::settings::{Mass, Settings};

// The amounts and the rates of a sheet, as the reader leaves them.
pub fn amounts_from(bits: &[u64; 32]) -> [f64; 32]
    ensures { result ≡ map double bits.now }
{
    bits.map(double)
}

pub fn rates_from(bits: &[u64; 64]) -> [f64; 64]
    ensures { result ≡ map double bits.now }
{
    bits.map(double)
}

// The settings of a sheet: max_steps, the rule, the mass Identity, and else the defaults.
fn settings_from(heading: Heading) -> Settings
    ensures { result ≡ settings_of heading.max_steps heading.rule }
{
    let defaults = Settings::new();
    let max_step = defaults.max_step;
    let min_step = defaults.min_step;
    let newton_tol = defaults.newton_tol;
    let nind1 = defaults.nind1;
    let nind2 = defaults.nind2;
    let nind3 = defaults.nind3;
    let source = defaults.source;
    let first_step = defaults.first_step;
    let rule = heading.rule;
    Settings {
        max_steps: heading.max_steps as usize,
        uround: defaults.uround,
        safety_factor: defaults.safety_factor,
        scale_min: defaults.scale_min,
        scale_max: defaults.scale_max,
        max_step,
        min_step,
        newton_maxiter: defaults.newton_maxiter,
        newton_tol,
        predictive: defaults.predictive,
        nind1,
        nind2,
        nind3,
        mass: Mass::Identity,
        source,
        first_step,
        dense_output: defaults.dense_output,
        rule,
    }
}

pub fn task_from(heading: Heading, amounts: [f64; 32]) -> Task
    ensures { result ≡ task_from heading amounts }
{
    Task {
        settings: settings_from(heading),
        n: heading.species,
        x0: double(heading.x0),
        xend: double(heading.xend),
        rtol: double(heading.rtol),
        atol: double(heading.atol),
        amounts,
        reactions: heading.reactions,
    }
}
