// The derivative species by species. A plan that is made once of a model lists for each species the changes that it
// has, in the order of the reactions; so each amount's are summed up in a variable of their own, and not in memory.
ghost use Rattle.std.specs.Prelude.{◌≡◌, ℕ, ◌+◌, ◌*◌, ◌<◌, ◌≤◌, List, length, get_or, EachIndex, IfSome};
ghost use Rattle.words.specs.Constants.{«0·0»};
ghost use Rattle.words.specs.Words.{◌!◌};
ghost use Rattle.words.specs.Loop.{loop};
ghost use Rattle.model.specs.Derivative.{derived_of};
ghost use Rattle.model.specs.Plan.{term_at, Changes, Lists, Listings, IsPlanOf};

use crate::derivation::derivative;
use crate::species::{times_amount, unknown_among};

// Room for 32 species and for 64 reactions, each with four places and two changes.
pub const STARTS: usize = 33;

pub const TERMS: usize = 256;

pub const CHANGES: usize = 128;

const REACTIONS: usize = 64;

// The plan of a model of n species: the changes of species s, counted from 0, are terms[starts[s]..starts[s + 1]].
#[derive(Clone, Copy)]
pub struct Plan {
    pub n: usize,
    pub starts: [usize; STARTS],
    pub terms: [usize; TERMS],
}

// Lists the changes of one species among the places, from `at` on, and answers where they end. Where there is no room
// any more a change is left out.
fn list_species(number: usize, places: &[usize], terms: &mut [usize; TERMS], at: usize) -> usize
    requires { (length places.now ≤ 256) × (at ≤ 8192) }
    ensures { Lists places.now number at terms.old (length places.now) terms.new result }
{
    let mut to = at;
    for (k, place) in places.iter().enumerate() {
        if *place == number {
            if to < TERMS {
                terms[to] = k / 2;
            }
            to += 1;
        }
    }
    to
}

// Lists those of each species, one after the other.
fn list_all(n: usize, places: &[usize], starts: &mut [usize; STARTS], terms: &mut [usize; TERMS])
    requires { (n ≤ 32) × (length places.now ≤ 256) × (get_or starts.old 0 0 ≡ 0) }
    ensures { Listings n places.now (length places.now) starts.new terms.new }
{
    for s in 0..n {
        starts[s + 1] = list_species(s + 1, places, terms, starts[s]);
    }
}

impl Plan {
    // The plan of a model of n species, where it has room for the model.
    pub fn new(n: usize, reactions: usize, species: &[usize]) -> Option<Plan>
        ensures { IfSome result (λ p. IsPlanOf p reactions species.now) }
    {
        if STARTS <= n || REACTIONS < reactions || species.len() / 4 < reactions {
            return None;
        }
        let places = &species[..4 * reactions];
        if unknown_among(n, places) {
            return None;
        }
        let mut starts = [0; STARTS];
        let mut terms = [0; TERMS];
        list_all(n, places, &mut starts, &mut terms);
        if TERMS < starts[n] {
            return None;
        }
        Some(Plan { n, starts, terms })
    }
}

// The changes of all reactions: of each reaction its speed with either sign.
fn change_all(
    reactions: usize,
    y: &[f64],
    rates: &[f64],
    species: &[usize],
    changes: &mut [f64; CHANGES],
)
    requires { (reactions ≤ 64) × (reactions ≤ length rates.now) × (4 * reactions ≤ length species.now)
        × ((k : ℕ) → k < 4 * reactions → get_or species.now k 0 ≤ length y.now) }
    ensures changes_len { length changes.new ≡ 128 }
    ensures changed { Changes reactions y.now rates.now species.now changes.new }
{
    for i in 0..reactions {
        let k = 4 * i;
        let v = times_amount(y, species[k + 1], times_amount(y, species[k], rates[i]));
        let j = 2 * i;
        changes[j] = -v;
        changes[j + 1] = v;
    }
}

// The sum of the changes that the terms name.
fn sum_of(terms: &[usize], changes: &[f64; CHANGES]) -> f64
    requires { EachIndex terms.now (λ t. get_or terms.now t 0 < 128) }
    ensures { result ≡ loop (term_at terms.now changes.now) 0 (length terms.now) «0·0» }
{
    let mut sum = 0.0;
    for k in terms {
        sum += changes[*k];
    }
    sum
}

// The sums of all species.
fn sum_all(plan: &Plan, changes: &[f64; CHANGES], dy: &mut [f64])
    requires n_bound { length dy.old ≤ 32 }
    requires by_index { (s : ℕ) → s < length dy.old → (get_or plan.now.starts s 0 ≤ get_or plan.now.starts (s + 1) 0)
        × (get_or plan.now.starts (s + 1) 0 ≤ 256)
        × ((t : ℕ) → get_or plan.now.starts s 0 ≤ t → t < get_or plan.now.starts (s + 1) 0
        → get_or plan.now.terms t 0 < 128) }
    ensures { (s : ℕ) → s < length dy.old → dy.new ! s
        ≡ loop (term_at plan.now.terms changes.now) (get_or plan.now.starts s 0)
        (get_or plan.now.starts (s + 1) 0) «0·0» }
{
    for (s, sum) in dy.iter_mut().enumerate() {
        *sum = sum_of(&plan.terms[plan.starts[s]..plan.starts[s + 1]], changes);
    }
}

// `derivative` by the plan of the model, where there is one for as many species as there are amounts.
pub fn derivative_by_plan(
    plan: Option<&Plan>,
    changes: &mut [f64; CHANGES],
    reactions: usize,
    y: &[f64],
    rates: &[f64],
    species: &[usize],
    dy: &mut [f64],
)
    requires { IfSome plan (λ p. IsPlanOf p.now reactions species.now) }
    ensures changes_len { length changes.new ≡ 128 }
    ensures dy_after { dy.new ≡ (derived_of reactions y.now rates.now species.now dy.old).dy }
{
    match plan {
        Some(plan) if y.len() == plan.n && dy.len() == plan.n && reactions <= rates.len() => {
            change_all(reactions, y, rates, species, changes);
            sum_all(plan, changes, dy);
        }
        _ => {
            // A refusal leaves the target as it was, and is not told.
            let _ = derivative(reactions, y, rates, species, dy);
        }
    }
}
