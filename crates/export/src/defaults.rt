// The default settings, in the two arrays that an opening takes.
ghost use Rattle.std.specs.Prelude.{◌≡◌};
ghost use Rattle.state.specs.Settings.{defaults_of};
ghost use Rattle.export.specs.Defaults.{numbers_of, floats_of};

use crate::choices::{flag_word, mass_word, rule_word, source_word};
use radau_core::optional::option_tag;
use state::settings::Settings;

fn numbers_of(s: Settings) -> [u64; 17]
    ensures { result ≡ numbers_of s }
{
    let mass = s.mass;
    let source = s.source;
    let rule = s.rule;
    let max_step = s.max_step;
    let min_step = s.min_step;
    let newton_tol = s.newton_tol;
    let first_step = s.first_step;
    let nind1 = s.nind1;
    let nind2 = s.nind2;
    let nind3 = s.nind3;
    [
        s.max_steps as u64,
        s.newton_maxiter as u64,
        flag_word(s.predictive),
        flag_word(s.dense_output),
        mass_word(mass),
        source_word(source),
        rule_word(rule),
        option_tag(max_step) as u64,
        option_tag(min_step) as u64,
        option_tag(newton_tol) as u64,
        option_tag(first_step) as u64,
        option_tag(nind1) as u64,
        nind1.unwrap_or(0) as u64,
        option_tag(nind2) as u64,
        nind2.unwrap_or(0) as u64,
        option_tag(nind3) as u64,
        nind3.unwrap_or(0) as u64,
    ]
}

fn floats_of(s: Settings) -> [f64; 8]
    ensures { result ≡ floats_of s }
{
    let max_step = s.max_step;
    let min_step = s.min_step;
    let newton_tol = s.newton_tol;
    let first_step = s.first_step;
    [
        s.uround,
        s.safety_factor,
        s.scale_min,
        s.scale_max,
        max_step.unwrap_or(0.0),
        min_step.unwrap_or(0.0),
        newton_tol.unwrap_or(0.0),
        first_step.unwrap_or(0.0),
    ]
}

// Writes the default settings.
#[unsafe(no_mangle)]
pub extern "C" fn elchepur_default_settings(numbers: &mut [u64; 17], floats: &mut [f64; 8])
    ensures { (numbers.new ≡ numbers_of defaults_of) × (floats.new ≡ floats_of defaults_of) }
{
    let settings = Settings::new();
    *numbers = numbers_of(settings);
    *floats = floats_of(settings);
}
