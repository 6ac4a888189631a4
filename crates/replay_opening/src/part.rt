// One part of the lent memory: its length and what it holds before the call, by the words of the case, and
// what it is to hold after it.
ghost use Rattle.std.specs.Prelude.{◌≤◌};

use crate::case::{CONTENTS, Case, EXCEPTION, LENGTHS};
use replay::found::Found;
use replay::memory::{Entry, PARTS};
use replay::settings::{LISTS, MASS_FULL, word};
use replay::word::quarter;
use std::array;

// The numbers of the parts that have rules of their own. Parts are counted from 0 in the order in
// which `open` takes them.
const Y: usize = 0;

const RTOL: usize = 10;

const ATOL: usize = 11;

const MASS: usize = 12;

const IP1: usize = 17;

const IP2: usize = 18;

// An entry that stands outside of its part's rule.
#[derive(Clone, Copy)]
struct Exception {
    place: usize,
    pattern: u64,
}

// What a part holds before the call: the patterns start with `first` and rise by `step`, but for one place.
#[derive(Clone, Copy)]
struct Contents {
    first: u64,
    step: u64,
    exception: Option<Exception>,
}

impl Contents {
    fn entry(self, place: usize) -> u64 {
        match self.exception {
            Some(other) if other.place == place => other.pattern,
            _ => self
                .first
                .wrapping_add(self.step.wrapping_mul(place as u64)),
        }
    }
}

// The place of a part's rule among the contents.
fn rule_of(part: usize) -> usize
    ensures { result ≤ 38 }
{
    match part {
        Y => CONTENTS,
        MASS => CONTENTS + 2,
        RTOL => CONTENTS + 4,
        ATOL => CONTENTS + 6,
        IP1 | IP2 => CONTENTS + 10,
        _ => CONTENTS + 8,
    }
}

fn contents_of(case: Case, part: usize) -> Contents {
    let words = case.words;
    let at = rule_of(part);
    let exception = Exception {
        place: quarter(words[EXCEPTION], 1) as usize,
        pattern: words[EXCEPTION + 1],
    };
    Contents {
        first: words[at],
        step: words[at + 1],
        exception: (quarter(words[EXCEPTION], 0) == part as u64).then_some(exception),
    }
}

// The length of a part.
fn length(case: Case, part: usize) -> usize {
    quarter(word(&case.words, LENGTHS + part / 4), part % 4) as usize
}

// The lengths of all parts.
pub fn lengths(case: Case) -> [usize; PARTS] {
    array::from_fn(|part| length(case, part))
}

// What a part holds before the call, in its array.
pub fn filled<E: Entry, const N: usize>(case: Case, part: usize) -> [E; N] {
    let contents = contents_of(case, part);
    array::from_fn(|place| E::from_word(contents.entry(place)))
}

// Whether an accepted opening leaves a part as it is.
fn is_kept(case: Case, part: usize) -> bool {
    match part {
        Y => true,
        MASS => case.choice(MASS_FULL),
        _ => false,
    }
}

// How many entries of a part the call sets to 0. Converted lists are judged apart.
fn cleared(case: Case, part: usize) -> usize {
    if case.is_accepted() && !is_kept(case, part) {
        return length(case, part);
    }
    0
}

// Holds all entries of an array against what its part is to hold after the call.
pub fn met<E: Entry>(found: Found, case: Case, part: usize, values: &[E]) -> Found {
    let contents = contents_of(case, part);
    let zeros = cleared(case, part);
    let mut now = found;
    for (place, value) in values.iter().enumerate() {
        let before = E::from_word(contents.entry(place)).to_word();
        now = now.compared(value.to_word(), if place < zeros { 0 } else { before });
    }
    now
}

// The same for the parts of tolerances: where lists are given, an accepted opening leaves them converted, as the first
// of each of the wanted pairs (rtol) or the second (atol).
pub fn met_tolerances(found: Found, case: Case, part: usize, values: &[f64]) -> Found {
    if !(case.is_accepted() && case.choice(LISTS)) {
        return met(found, case, part, values);
    }
    let side = usize::from(part != RTOL);
    let wanted = case.pairs.iter().skip(side).step_by(2);
    let mut now = found;
    for (value, wanted) in values.iter().zip(wanted).take(length(case, part)) {
        now = now.double(*value, *wanted);
    }
    now
}
