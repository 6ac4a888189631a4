// The settings of a run, given as 17 numbers and 8 floats.
ghost use Rattle.std.specs.Prelude.{◌≡◌};
ghost use Rattle.export.specs.Talk.{settings_given};

use crate::choices::{mass, rule, source};
use radau_core::optional::option_at;
use state::settings::Settings;

pub fn given_settings(w: &[u64; 17], x: &[f64; 8]) -> Settings
    ensures { result ≡ settings_given w.now x.now }
{
    Settings {
        max_steps: w[0] as usize,
        uround: x[0],
        safety_factor: x[1],
        scale_min: x[2],
        scale_max: x[3],
        max_step: option_at(w[7] as usize, x[4]),
        min_step: option_at(w[8] as usize, x[5]),
        newton_maxiter: w[1] as usize,
        newton_tol: option_at(w[9] as usize, x[6]),
        predictive: w[2] != 0,
        nind1: option_at(w[11] as usize, w[12] as usize),
        nind2: option_at(w[13] as usize, w[14] as usize),
        nind3: option_at(w[15] as usize, w[16] as usize),
        mass: mass(w[4]),
        source: source(w[5]),
        first_step: option_at(w[10] as usize, x[7]),
        dense_output: w[3] != 0,
        rule: rule(w[6]),
    }
}
