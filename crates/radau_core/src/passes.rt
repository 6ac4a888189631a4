// The decompositions of a pass, and what a failure leads to (radau.rs:390-419).
ghost use Rattle.std.specs.Prelude.{◌≡◌, ℕ, ◌+◌, ◌≤◌, ◌<◌, ◌^◌, List, length, Float};
ghost use Rattle.words.specs.Grid.{Square};
ghost use Rattle.state.specs.Memory.{factors};
ghost use Rattle.solve_blocks.specs.Setters.{in_counts, one_lu};
ghost use Rattle.solve_blocks.specs.Matrices.{wished_of, missed_of, failed_of, is_err, column_of, stopping, tried};
ghost use Rattle.solve_blocks.specs.Matrices.{complex_tried_of, real_tried_of, tried_of, passes_on, passes_of};
ghost use Rattle.solve_blocks.specs.Needs.{Fit, StepFit, FactorsLong};
ghost use Rattle.radau_core.specs.Places.{run_at, Sized, step_at, shape_at, control_at, settings_at};

use crate::kept::{mass_mode, rule_mode};
use crate::matrices::built;
use crate::notes::noted;
use crate::places::{
    CALL_DECOMP, CALL_JAC, DOUBLES, H, HHFAC, LAST, LU, MADE_HERE, MASS, N, REJECT, RULE,
    SINGULAR_COUNT, WORDS,
};
use crate::stage::ended;
use crate::step::Step;
use matrix::{DecompositionError, lu_decomp, lu_decomp_complex};
use state::run::{Singular, Status};
use state::settings::Rule;

// Whether a Jacobian is wanted past a failure: by the Rust rule as before it, by the book's unless it was made here.
fn wished(words: &[usize; WORDS]) -> bool
    ensures { (d : List Float)
        → result ≡ wished_of (settings_at words.now d).rule (control_at words.now) }
{
    let rule = rule_mode(words[RULE]);
    match rule {
        Rule::Rust => words[CALL_JAC] != 0,
        Rule::Book => words[MADE_HERE] == 0,
    }
}

// After any attempt that is not accepted.
pub fn missed(words: &mut [usize; WORDS], doubles: &mut [f64; DOUBLES])
    requires { Sized words.old doubles.old }
    ensures sized { Sized words.new doubles.new }
    ensures doubles_after { run_at words.new doubles.new
        ≡ missed_of (run_at words.old doubles.old) }
{
    let wish = wished(words);
    words[REJECT] = 1;
    words[LAST] = 0;
    words[CALL_DECOMP] = 1;
    words[CALL_JAC] = wish as usize;
}

// A failure: the sixth since the last acceptance ends the run, another halves the step.
pub fn failed(words: &mut [usize; WORDS], doubles: &mut [f64; DOUBLES]) -> Step
    requires sized { Sized words.old doubles.old }
    requires singular_count_bound { (run_at words.old doubles.old).control.singular_count ≤ 5 }
    ensures sized_2 { Sized words.new doubles.new }
    ensures doubles_after { step_at result (run_at words.new doubles.new)
        ≡ failed_of (run_at words.old doubles.old) }
{
    let singular_count = words[SINGULAR_COUNT] + 1;
    words[SINGULAR_COUNT] = singular_count;
    if 5 < singular_count {
        return Step::Asked(ended(words, doubles, Status::SingularMatrix));
    }
    doubles[H] = doubles[H] * 0.5;
    doubles[HHFAC] = 0.5;
    missed(words, doubles);
    Step::Main
}

fn is_err(answer: Result<(), DecompositionError>) -> bool
    ensures { result ≡ is_err answer }
{
    match answer {
        Ok(()) => false,
        Err(_) => true,
    }
}

fn column_of(answer: Result<(), DecompositionError>) -> usize
    ensures { result ≡ column_of answer }
{
    match answer {
        Ok(()) => 0,
        Err(DecompositionError::Order) => 0,
        Err(DecompositionError::Length) => 0,
        Err(DecompositionError::Singular(k)) => k,
    }
}

// A decomposition that failed is kept as the latest, and is a failure.
fn stopping(
    words: &mut [usize; WORDS],
    doubles: &mut [f64; DOUBLES],
    singular: Option<Singular>,
) -> Step
    requires sized { Sized words.old doubles.old }
    requires singular_count_bound { (run_at words.old doubles.old).control.singular_count ≤ 5 }
    ensures sized_2 { Sized words.new doubles.new }
    ensures doubles_after { step_at result (run_at words.new doubles.new)
        ≡ stopping singular (run_at words.old doubles.old) }
{
    noted(words, doubles, singular);
    failed(words, doubles)
}

// One more decomposition is counted.
pub fn counted(words: &mut [usize; WORDS], doubles: &mut [f64; DOUBLES])
    requires sized { Sized words.old doubles.old }
    requires doubles_bound { (run_at words.old doubles.old).counts.lu + 1 < 2 ^ 64 }
    ensures sized_2 { Sized words.new doubles.new }
    ensures doubles_after { run_at words.new doubles.new
        ≡ in_counts one_lu (run_at words.old doubles.old) }
{
    words[LU] = words[LU] + 1;
}

// E2, where E1 is decomposed.
fn complex_tried(
    words: &mut [usize; WORDS],
    doubles: &mut [f64; DOUBLES],
    e2r: &mut [f64],
    e2i: &mut [f64],
    ip2: &mut [usize],
) -> Step
    requires sized { Sized words.old doubles.old }
    requires fit { Fit 1 (shape_at words.old).n (run_at words.old doubles.old) }
    ensures sized_2 { Sized words.new doubles.new }
    ensures ip2_after { (e1 : List Float) (ip1 : List ℕ)
        → tried (step_at result (run_at words.new doubles.new))
        (factors e1 e2r.new e2i.new ip1 ip2.new)
        ≡ (complex_tried_of (run_at words.old doubles.old)
        (factors e1 e2r.old e2i.old ip1 ip2.old)).core }
{
    let n = words[N];
    let answer = lu_decomp_complex(n, e2r, e2i, ip2);
    counted(words, doubles);
    if is_err(answer) {
        return stopping(words, doubles, Some(Singular::Complex(column_of(answer))));
    }
    Step::Attempt
}

fn real_tried(
    words: &mut [usize; WORDS],
    doubles: &mut [f64; DOUBLES],
    e1: &mut [f64],
    e2r: &mut [f64],
    e2i: &mut [f64],
    ip1: &mut [usize],
    ip2: &mut [usize],
) -> Step
    requires sized { Sized words.old doubles.old }
    requires fit { Fit 2 (shape_at words.old).n (run_at words.old doubles.old) }
    ensures sized_2 { Sized words.new doubles.new }
    ensures ip2_after { tried (step_at result (run_at words.new doubles.new))
        (factors e1.new e2r.new e2i.new ip1.new ip2.new)
        ≡ (real_tried_of (run_at words.old doubles.old)
        (factors e1.old e2r.old e2i.old
        ip1.old ip2.old)).core }
{
    let n = words[N];
    let answer = lu_decomp(n, e1, ip1);
    counted(words, doubles);
    if is_err(answer) {
        return stopping(words, doubles, Some(Singular::Real(column_of(answer))));
    }
    complex_tried(words, doubles, e2r, e2i, ip2)
}

// One pass through the matrices, where they are wanted.
fn tried(
    words: &mut [usize; WORDS],
    doubles: &mut [f64; DOUBLES],
    mass: &[f64],
    jac: &[f64],
    e1: &mut [f64],
    e2r: &mut [f64],
    e2i: &mut [f64],
    ip1: &mut [usize],
    ip2: &mut [usize],
) -> Step
    requires sized { Sized words.old doubles.old }
    requires fit { Fit 2 (shape_at words.old).n (run_at words.old doubles.old) }
    requires square { Square (shape_at words.old).n mass.now
        × Square (shape_at words.old).n jac.now
        × FactorsLong (shape_at words.old).n
        (factors e1.old e2r.old e2i.old ip1.old ip2.old) }
    ensures sized_2 { Sized words.new doubles.new }
    ensures ip2_after { tried (step_at result (run_at words.new doubles.new))
        (factors e1.new e2r.new e2i.new ip1.new ip2.new)
        ≡ (tried_of (run_at words.old doubles.old) mass.now jac.now
        (factors e1.old e2r.old e2i.old ip1.old
        ip2.old)).core }
{
    if words[CALL_DECOMP] != 0 {
        let mode = mass_mode(words[MASS]);
        let n = words[N];
        let h = doubles[H];
        built(mode, n, mass, jac, h, e1, e2r, e2i);
        return real_tried(words, doubles, e1, e2r, e2i, ip1, ip2);
    }
    Step::Attempt
}

fn passes_on(step: Step, words: &[usize; WORDS]) -> bool
    ensures { (d : List Float) → result ≡ passes_on (step_at step (run_at words.now d)) }
{
    match step {
        Step::Asked(_) => false,
        Step::Main => words[CALL_JAC] == 0,
        Step::Matrices => true,
        Step::Attempt => false,
    }
}

// Passes through the matrices until one stands, a Jacobian is wanted or the run has ended: the sixth failure
// ends it, so six are enough.
pub fn passes(
    words: &mut [usize; WORDS],
    doubles: &mut [f64; DOUBLES],
    n: usize,
    step: Step,
    mass: &[f64],
    jac: &[f64],
    e1: &mut [f64],
    e2r: &mut [f64],
    e2i: &mut [f64],
    ip1: &mut [usize],
    ip2: &mut [usize],
) -> Step
    requires sized { Sized words.old doubles.old }
    requires step_fit { StepFit 12 n (step_at step (run_at words.old doubles.old)) }
    requires square { Square n mass.now
        × Square n jac.now
        × FactorsLong n
        (factors e1.old e2r.old e2i.old ip1.old ip2.old) }
    ensures sized_2 { Sized words.new doubles.new }
    ensures ip2_after { tried (step_at result (run_at words.new doubles.new))
        (factors e1.new e2r.new e2i.new ip1.new ip2.new)
        ≡ (passes_of (step_at step (run_at words.old doubles.old))
        mass.now jac.now
        (factors e1.old e2r.old e2i.old ip1.old
        ip2.old)).core }
{
    let mut s = step;
    for _ in 0..6usize {
        if !passes_on(s, words) {
            return s;
        }
        s = tried(words, doubles, mass, jac, e1, e2r, e2i, ip1, ip2);
    }
    s
}
