// Opening a run over groups of its lent memory.
ghost use Rattle.std.specs.Prelude.{◌≡◌, ◌≤◌};
ghost use Rattle.state.specs.Memory.{memory, amounts, given};
ghost use Rattle.state.specs.Lent.{newton_of, factors_of, differences_of, SameNewton, SameFactors, SameDifferences};
ghost use Rattle.opening.specs.Rows.{verdict_of, value_rows, mass_given, rtol_given, atol_given, opening};
ghost use Rattle.opening.specs.Opening.{opening_outcome, open_of};

use crate::checks::{amounts_fit, check_values, given_fit};
use crate::clear::clear_working;
use crate::first::{first_run, keep_mass};
use crate::tolerances::convert;
use state::lent::{Differences, Factors, Newton};
use state::run::Tolerances;
use state::settings::{Mass, Settings};
use state::talk::{Call, Place, Refusal, Request};

// Rows 3 to 12, the tolerances being scalars or lists.
fn check_tolerated(
    s: Settings,
    n: usize,
    x0: f64,
    xend: f64,
    tolerances: Tolerances,
    y: &[f64],
    mass: &[f64],
    rtol: &[f64],
    atol: &[f64],
) -> Result<(), Refusal>
    requires { n ≤ 32 }
    ensures { result
        ≡ verdict_of (value_rows s n x0 xend y.now mass.now
        (rtol_given tolerances rtol.now) (atol_given tolerances atol.now)) }
{
    match tolerances {
        Tolerances::Scalars(relative, absolute) => {
            let one_rtol = [relative];
            let one_atol = [absolute];
            check_values(s, n, x0, xend, y, mass, &one_rtol, &one_atol)
        }
        Tolerances::Lists => check_values(s, n, x0, xend, y, mass, rtol, atol),
    }
}

// Rows 3 to 12, a mass being given where it is Full.
fn check_given(
    s: Settings,
    n: usize,
    x0: f64,
    xend: f64,
    tolerances: Tolerances,
    y: &[f64],
    mass: &[f64],
    rtol: &[f64],
    atol: &[f64],
) -> Result<(), Refusal>
    requires { n ≤ 32 }
    ensures { result
        ≡ verdict_of (value_rows s n x0 xend y.now (mass_given s.mass mass.now)
        (rtol_given tolerances rtol.now) (atol_given tolerances atol.now)) }
{
    let mode = s.mass;
    match mode {
        Mass::Identity => check_tolerated(s, n, x0, xend, tolerances, y, &mass[..0], rtol, atol),
        Mass::Full => check_tolerated(s, n, x0, xend, tolerances, y, mass, rtol, atol),
    }
}

// As `open`, the lent memory being in groups.
pub fn opened(
    settings: Settings,
    n: usize,
    x0: f64,
    xend: f64,
    tolerances: Tolerances,
    y: &[f64],
    f0: &mut [f64],
    scal: &mut [f64],
    cont: &mut [f64],
    lent_newton: &mut Newton<'_>,
    rtol: &mut [f64],
    atol: &mut [f64],
    mass: &mut [f64],
    jac: &mut [f64],
    lent_factors: &mut Factors<'_>,
    lent_differences: &mut Differences<'_>,
) -> Result<Call, Refusal>
    ensures same_newton { SameNewton lent_newton.new lent_newton.old }
    ensures same_factors { SameFactors lent_factors.new lent_factors.old }
    ensures same_differences { SameDifferences lent_differences.new lent_differences.old }
    ensures outcome { opening_outcome result (memory
        (amounts y.now f0.new scal.new cont.new)
        (newton_of lent_newton.new)
        (given rtol.new atol.new mass.new jac.new)
        (factors_of lent_factors.new)
        (differences_of lent_differences.new))
        ≡ open_of (opening settings n x0 xend tolerances (memory
        (amounts y.now f0.old scal.old cont.old)
        (newton_of lent_newton.old)
        (given rtol.old atol.old mass.old jac.old)
        (factors_of lent_factors.old)
        (differences_of lent_differences.old))) }
{
    if (n < 1) | (32 < n) {
        return Err(Refusal::Order);
    }
    let fit = amounts_fit(n, y.len(), f0.len(), scal.len(), cont.len())
        & lent_newton.fits(n)
        & given_fit(n, rtol.len(), atol.len(), mass.len(), jac.len())
        & lent_factors.fits(n)
        & lent_differences.fits(n);
    if !fit {
        return Err(Refusal::Length);
    }
    check_given(settings, n, x0, xend, tolerances, y, mass, rtol, atol)?;
    clear_working(f0, scal, cont, jac);
    lent_newton.clear();
    lent_factors.clear();
    lent_differences.clear();
    keep_mass(settings.mass, mass);
    let conversion = convert(settings.rule, n, tolerances, rtol, atol);
    Ok(Call {
        run: first_run(settings, n, x0, xend, conversion),
        request: Request::Derivative(x0),
        place: Place::YToF0,
    })
}
