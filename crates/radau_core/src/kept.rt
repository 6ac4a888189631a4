// What stays of a run, read off its places.
ghost use Rattle.std.specs.Prelude.{◌≡◌};
ghost use Rattle.radau_core.specs.Choices.{mass_of, source_of, rule_of};
ghost use Rattle.radau_core.specs.Places.{shape_at, fixed_at};

use crate::places::{ATOL, DOUBLES, LISTS, N, NIND1, NIND2, NIND3, RTOL, WORDS};
use state::run::{Shape, Tolerances};
use state::settings::{Mass, Rule, Source};

pub fn mass_mode(word: usize) -> Mass
    ensures { result ≡ mass_of word }
{
    if word == 0 {
        return Mass::Identity;
    }
    Mass::Full
}

pub fn source_mode(word: usize) -> Source
    ensures { result ≡ source_of word }
{
    if word == 0 {
        return Source::Host;
    }
    Source::Differences
}

pub fn rule_mode(word: usize) -> Rule
    ensures { result ≡ rule_of word }
{
    if word == 0 {
        return Rule::Rust;
    }
    Rule::Book
}

pub fn tolerances_at(words: &[usize; WORDS], doubles: &[f64; DOUBLES]) -> Tolerances
    ensures { result ≡ (fixed_at words.now doubles.now).tolerances }
{
    if words[LISTS] == 0 {
        return Tolerances::Scalars(doubles[RTOL], doubles[ATOL]);
    }
    Tolerances::Lists
}

pub fn shape_at(words: &[usize; WORDS]) -> Shape
    ensures { result ≡ shape_at words.now }
{
    Shape {
        n: words[N],
        nind1: words[NIND1],
        nind2: words[NIND2],
        nind3: words[NIND3],
    }
}
