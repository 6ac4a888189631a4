// The rows of opening's table of refusals, in groups: each function gives the verdict of its rows.
ghost use Rattle.std.specs.Prelude.{◌≡◌, not, ◌&&◌, [], ◌∷◌, ◌+◌, ◌≤◌, eqb};
ghost use Rattle.state.specs.Memory.{amounts_fit, given_fit, factors_fit};
ghost use Rattle.opening.specs.Rows.{test, verdict_of, not_finite, bad_number, end_rows, list_rows};
ghost use Rattle.opening.specs.Rows.{number_rows, range_rows, tolerance_rows, partition_fails};
ghost use Rattle.opening.specs.Rows.{given_zero, given_below, step_rows, value_rows};

use crate::absent::{ceiling, floor};
use crate::parts::{Below, NotAbove, NotFinite, first, is_not_finite};
use state::settings::Settings;
use state::talk::{Refusal, Value};

// Row 2: the lengths of each group of parts.
pub fn amounts_fit(n: usize, y: usize, f0: usize, scal: usize, cont: usize) -> bool
    requires { n ≤ 32 }
    ensures { result ≡ amounts_fit n y f0 scal cont }
{
    let wide = 4 * n;
    (y == n) & (f0 == n) & (scal == n) & (cont == wide)
}

// Three parts of n entries: z1 to z3, f1 to f3, and those of the differences.
pub fn vectors_fit(n: usize, a: usize, b: usize, c: usize) -> bool
    ensures { result ≡ (eqb a n && eqb b n && eqb c n) }
{
    (a == n) & (b == n) & (c == n)
}

pub fn given_fit(n: usize, rtol: usize, atol: usize, mass: usize, jac: usize) -> bool
    requires { n ≤ 32 }
    ensures { result ≡ given_fit n rtol atol mass jac }
{
    let square = n * n;
    (rtol == n) & (atol == n) & (mass == square) & (jac == square)
}

pub fn factors_fit(n: usize, e1: usize, e2r: usize, e2i: usize, ip1: usize, ip2: usize) -> bool
    requires { n ≤ 32 }
    ensures { result ≡ factors_fit n e1 e2r e2i ip1 ip2 }
{
    let square = n * n;
    (e1 == square) & (e2r == square) & (e2i == square) & (ip1 == n) & (ip2 == n)
}

// Refuses where a test holds.
pub fn refuse(holds: bool, refusal: Refusal) -> Result<(), Refusal>
    ensures { result ≡ verdict_of (test holds refusal ∷ []) }
{
    if holds {
        return Err(refusal);
    }
    Ok(())
}

// Refuses a number that is not finite.
fn refuse_number(x: f64, value: Value) -> Result<(), Refusal>
    ensures { result ≡ verdict_of (test (not_finite x) (Refusal.NotFinite value) ∷ []) }
{
    refuse(is_not_finite(x), Refusal::NotFinite(value))
}

// The same of a number that may be absent.
fn refuse_given(x: Option<f64>, value: Value) -> Result<(), Refusal>
    ensures { result ≡ verdict_of (test (bad_number x) (Refusal.NotFinite value) ∷ []) }
{
    match x {
        None => Ok(()),
        Some(v) => refuse_number(v, value),
    }
}

// Row 3, the ends.
pub fn check_ends(x0: f64, xend: f64) -> Result<(), Refusal>
    ensures { result ≡ verdict_of (end_rows x0 xend) }
{
    refuse_number(x0, Value::X0)?;
    refuse_number(xend, Value::Xend)
}

// Row 3, what is given in lent memory.
pub fn check_lists(y: &[f64], mass: &[f64], rtol: &[f64], atol: &[f64]) -> Result<(), Refusal>
    ensures { result
        ≡ verdict_of (list_rows y.now mass.now rtol.now atol.now) }
{
    if let Some(place) = first::<NotFinite>(y) {
        return Err(Refusal::NotFinite(Value::Amount(place)));
    }
    if let Some(place) = first::<NotFinite>(mass) {
        return Err(Refusal::NotFinite(Value::MassEntry(place)));
    }
    if let Some(place) = first::<NotFinite>(rtol) {
        return Err(Refusal::NotFinite(Value::Rtol(place)));
    }
    if let Some(place) = first::<NotFinite>(atol) {
        return Err(Refusal::NotFinite(Value::Atol(place)));
    }
    Ok(())
}

// Row 3, the settings, in the order of the Rust's struct.
pub fn check_numbers(s: Settings) -> Result<(), Refusal>
    ensures { result ≡ verdict_of (number_rows s) }
{
    refuse_number(s.uround, Value::Uround)?;
    refuse_number(s.safety_factor, Value::SafetyFactor)?;
    refuse_number(s.scale_min, Value::ScaleMin)?;
    refuse_number(s.scale_max, Value::ScaleMax)?;
    refuse_given(s.max_step, Value::MaxStep)?;
    refuse_given(s.min_step, Value::MinStep)?;
    refuse_given(s.newton_tol, Value::NewtonTol)?;
    refuse_given(s.first_step, Value::FirstStep)
}

// Rows 4 to 8.
pub fn check_ranges(s: Settings) -> Result<(), Refusal>
    ensures { result ≡ verdict_of (range_rows s) }
{
    refuse(
        (s.max_steps < 1) | (1_000_000 < s.max_steps),
        Refusal::MaxSteps,
    )?;
    refuse((s.uround <= 1e-35) | (s.uround >= 1.0), Refusal::Uround)?;
    refuse(
        (s.safety_factor <= 1e-4) | (s.safety_factor >= 1.0),
        Refusal::SafetyFactor,
    )?;
    refuse(
        (s.scale_min <= 0.0) | !(s.scale_min < s.scale_max),
        Refusal::Scales,
    )?;
    refuse(
        (s.newton_maxiter < 1) | (16 < s.newton_maxiter),
        Refusal::NewtonMaxiter,
    )
}

// Row 9.
pub fn check_tolerances(rtol: &[f64], atol: &[f64]) -> Result<(), Refusal>
    ensures { result ≡ verdict_of (tolerance_rows rtol.now atol.now) }
{
    if let Some(place) = first::<NotAbove>(rtol) {
        return Err(Refusal::Tolerance(Value::Rtol(place)));
    }
    if let Some(place) = first::<Below>(atol) {
        return Err(Refusal::Tolerance(Value::Atol(place)));
    }
    Ok(())
}

// Row 10.
pub fn partition_fails(
    n: usize,
    nind1: Option<usize>,
    nind2: Option<usize>,
    nind3: Option<usize>,
) -> bool
    requires { n ≤ 32 }
    ensures { result ≡ partition_fails n nind1 nind2 nind3 }
{
    let two = nind2.unwrap_or(0);
    let three = nind3.unwrap_or(0);
    if n < two {
        return true;
    }
    if n < three {
        return true;
    }
    match nind1 {
        None => n < two + three,
        Some(one) => sum_differs(n, one, two, three),
    }
}

// Whether the three counts don't sum to n. A count above n settles it, and what is left adds up without overflow.
pub fn sum_differs(n: usize, one: usize, two: usize, three: usize) -> bool
    requires { n ≤ 32 }
    ensures { result ≡ not (eqb (one + two + three) n) }
{
    if n < one {
        return true;
    }
    if n < two {
        return true;
    }
    if n < three {
        return true;
    }
    one + two + three != n
}

fn is_zero(x: Option<f64>) -> bool
    ensures { result ≡ given_zero x }
{
    match x {
        None => false,
        Some(v) => v == 0.0,
    }
}

fn is_below(x: Option<f64>) -> bool
    ensures { result ≡ given_below x }
{
    match x {
        None => false,
        Some(v) => v < 0.0,
    }
}

// Rows 10 to 12.
pub fn check_steps(s: Settings, n: usize, x0: f64, xend: f64) -> Result<(), Refusal>
    requires { n ≤ 32 }
    ensures { result ≡ verdict_of (step_rows s n x0 xend) }
{
    refuse(
        partition_fails(n, s.nind1, s.nind2, s.nind3),
        Refusal::Partition,
    )?;
    refuse(is_zero(s.first_step), Refusal::FirstStep)?;
    refuse(is_below(s.max_step), Refusal::MaxStep)?;
    refuse(ceiling(s, x0, xend) < floor(s), Refusal::MinStep)
}

// Rows 3 to 12, on what is given.
pub fn check_values(
    s: Settings,
    n: usize,
    x0: f64,
    xend: f64,
    y: &[f64],
    mass: &[f64],
    rtol: &[f64],
    atol: &[f64],
) -> Result<(), Refusal>
    requires { n ≤ 32 }
    ensures { result
        ≡ verdict_of
        (value_rows s n x0 xend y.now mass.now rtol.now atol.now) }
{
    check_ends(x0, xend)?;
    check_lists(y, mass, rtol, atol)?;
    check_numbers(s)?;
    check_ranges(s)?;
    check_tolerances(rtol, atol)?;
    check_steps(s, n, x0, xend)
}
