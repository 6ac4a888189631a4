// The settings of a run, made of words that stand at the same places in every case of a run.
#![tactic(auto, unfolding(words::specs::Loop::pick))]

ghost use Rattle.std.specs.Prelude.{◌≡◌};
ghost use Rattle.replay.specs.Settings.{word_at, choice_of, number_of, whole_of, mass_of};
ghost use Rattle.replay.specs.Settings.{source_of, rule_of, tolerances_of, settings_of};

use bits::double;
use state::run::Tolerances;
use state::settings::{Mass, Rule, Settings, Source};

// The words of n, x0 and xend, and those of the settings behind them.
pub const N: usize = 0;

pub const X0: usize = 1;

pub const XEND: usize = 2;

pub const CHOICES: usize = 3;

pub const MAX_STEPS: usize = 4;

pub const NEWTON_MAXITER: usize = 5;

pub const UROUND: usize = 6;

pub const SAFETY_FACTOR: usize = 7;

pub const SCALE_MIN: usize = 8;

pub const SCALE_MAX: usize = 9;

pub const MAX_STEP: usize = 10;

pub const MIN_STEP: usize = 11;

pub const NEWTON_TOL: usize = 12;

pub const FIRST_STEP: usize = 13;

pub const RTOL: usize = 14;

pub const ATOL: usize = 15;

pub const NIND1: usize = 16;

pub const NIND2: usize = 17;

pub const NIND3: usize = 18;

// The bits of the word of choices.
pub const MAX_STEP_GIVEN: u64 = 1;

pub const MIN_STEP_GIVEN: u64 = 2;

pub const NEWTON_TOL_GIVEN: u64 = 4;

pub const FIRST_STEP_GIVEN: u64 = 8;

pub const NIND1_GIVEN: u64 = 16;

pub const NIND2_GIVEN: u64 = 32;

pub const NIND3_GIVEN: u64 = 64;

pub const PREDICTIVE: u64 = 128;

pub const DENSE_OUTPUT: u64 = 256;

pub const MASS_FULL: u64 = 512;

pub const HOST: u64 = 1024;

pub const BOOK: u64 = 2048;

pub const LISTS: u64 = 4096;

// The word at a place, 0 where there is none.
pub fn word(words: &[u64], place: usize) -> u64
    ensures { result ≡ word_at words.now place }
{
    words.get(place).copied().unwrap_or(0)
}

// Whether a bit of the word of choices is set.
#[tactic(auto, unfolding(words::specs::Loop::pick, crate::specs::Settings::choice_of))]
pub fn choice(words: &[u64], bit: u64) -> bool
    ensures { result ≡ choice_of words.now bit }
{
    bit != 0 && word(words, CHOICES) / bit % 2 == 1
}

// The double at a place, if its bit is set.
pub fn number(words: &[u64], bit: u64, place: usize) -> Option<f64>
    ensures { result ≡ number_of words.now bit place }
{
    choice(words, bit).then_some(double(word(words, place)))
}

pub fn whole(words: &[u64], bit: u64, place: usize) -> Option<usize>
    ensures { result ≡ whole_of words.now bit place }
{
    choice(words, bit).then_some(word(words, place) as usize)
}

pub fn tolerances_of(words: &[u64]) -> Tolerances
    ensures { result ≡ tolerances_of words.now }
{
    if choice(words, LISTS) {
        return Tolerances::Lists;
    }
    Tolerances::Scalars(double(word(words, RTOL)), double(word(words, ATOL)))
}

pub fn settings_of(words: &[u64]) -> Settings
    ensures { result ≡ settings_of words.now }
{
    Settings {
        max_steps: word(words, MAX_STEPS) as usize,
        uround: double(word(words, UROUND)),
        safety_factor: double(word(words, SAFETY_FACTOR)),
        scale_min: double(word(words, SCALE_MIN)),
        scale_max: double(word(words, SCALE_MAX)),
        max_step: number(words, MAX_STEP_GIVEN, MAX_STEP),
        min_step: number(words, MIN_STEP_GIVEN, MIN_STEP),
        newton_maxiter: word(words, NEWTON_MAXITER) as usize,
        newton_tol: number(words, NEWTON_TOL_GIVEN, NEWTON_TOL),
        predictive: choice(words, PREDICTIVE),
        nind1: whole(words, NIND1_GIVEN, NIND1),
        nind2: whole(words, NIND2_GIVEN, NIND2),
        nind3: whole(words, NIND3_GIVEN, NIND3),
        mass: if choice(words, MASS_FULL) {
            Mass::Full
        } else {
            Mass::Identity
        },
        source: if choice(words, HOST) {
            Source::Host
        } else {
            Source::Differences
        },
        first_step: number(words, FIRST_STEP_GIVEN, FIRST_STEP),
        dense_output: choice(words, DENSE_OUTPUT),
        rule: if choice(words, BOOK) {
            Rule::Book
        } else {
            Rule::Rust
        },
    }
}
