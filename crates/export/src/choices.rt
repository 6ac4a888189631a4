// Choices as numbers. Read, 0 is the one and any other number the other; written, the other is 1.
ghost use Rattle.std.specs.Prelude.{◌≡◌};
ghost use Rattle.radau_core.specs.Choices.{mass_of, source_of, rule_of, tolerances_of};
ghost use Rattle.radau_core.specs.Choices.{flag_word, mass_word, source_word, rule_word};

use state::run::Tolerances;
use state::settings::{Mass, Rule, Source};

pub fn mass(word: u64) -> Mass
    ensures { result ≡ mass_of word }
{
    if word == 0 {
        return Mass::Identity;
    }
    Mass::Full
}

pub fn source(word: u64) -> Source
    ensures { result ≡ source_of word }
{
    if word == 0 {
        return Source::Host;
    }
    Source::Differences
}

pub fn rule(word: u64) -> Rule
    ensures { result ≡ rule_of word }
{
    if word == 0 {
        return Rule::Rust;
    }
    Rule::Book
}

pub fn tolerances(lists: u64, rtol: f64, atol: f64) -> Tolerances
    ensures { result ≡ tolerances_of lists rtol atol }
{
    if lists == 0 {
        return Tolerances::Scalars(rtol, atol);
    }
    Tolerances::Lists
}

pub fn flag_word(flag: bool) -> u64
    ensures { result ≡ flag_word flag }
{
    if flag {
        return 1;
    }
    0
}

pub fn mass_word(mass: Mass) -> u64
    ensures { result ≡ mass_word mass }
{
    match mass {
        Mass::Identity => 0,
        Mass::Full => 1,
    }
}

pub fn source_word(source: Source) -> u64
    ensures { result ≡ source_word source }
{
    match source {
        Source::Host => 0,
        Source::Differences => 1,
    }
}

pub fn rule_word(rule: Rule) -> u64
    ensures { result ≡ rule_word rule }
{
    match rule {
        Rule::Rust => 0,
        Rule::Book => 1,
    }
}
