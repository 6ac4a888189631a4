// The run before its first request, past the tests of opening (radau.rs:211-330).
ghost use Rattle.std.specs.Prelude.{◌≡◌, ◌*◌, length};
ghost use Rattle.opening.specs.Opening.{nind1_of, shape_of, wished_step, first_step_of, fixed_of};
ghost use Rattle.opening.specs.Opening.{first_control, first_numbers, first_run, mass_kept};

use crate::absent::{ceiling, floor};
use crate::tolerances::{Conversion, newton_tolerance};
use scalar::{abs, clamp, signum};
use state::parts::zero;
use state::run::{Control, Counts, Fixed, Notes, Numbers, Run, Shape, Stage};
use state::settings::{Mass, Settings};

// What two counts leave of n, or 0.
fn left_of(n: usize, two: usize, three: usize) -> usize
    ensures { result ≡ nind1_of n None two three }
{
    if n < two {
        return 0;
    }
    if n - two < three {
        return 0;
    }
    n - two - three
}

fn nind1(n: usize, one: Option<usize>, two: usize, three: usize) -> usize
    ensures { result ≡ nind1_of n one two three }
{
    match one {
        None => left_of(n, two, three),
        Some(k) => k,
    }
}

fn shape(n: usize, s: Settings) -> Shape
    ensures { result ≡ shape_of n s }
{
    let two = s.nind2.unwrap_or(0);
    let three = s.nind3.unwrap_or(0);
    Shape {
        n,
        nind1: nind1(n, s.nind1, two, three),
        nind2: two,
        nind3: three,
    }
}

fn wished_step(first_step: Option<f64>, posneg: f64) -> f64
    ensures { result ≡ wished_step first_step posneg }
{
    match first_step {
        Some(h0) => abs(h0) * posneg,
        None => 1.0e-6 * posneg,
    }
}

fn first_h(s: Settings, posneg: f64, hmax: f64) -> f64
    ensures { result ≡ first_step_of s posneg hmax }
{
    clamp(wished_step(s.first_step, posneg), -hmax, hmax)
}

fn fixed(s: Settings, x0: f64, xend: f64, conversion: Conversion) -> Fixed
    ensures { result ≡ fixed_of s x0 xend conversion }
{
    let tolerances = conversion.tolerances;
    let newton_tol = s.newton_tol;
    Fixed {
        tolerances,
        newton_tol: newton_tolerance(newton_tol, s.uround, conversion.tolst),
        xend,
        posneg: signum(xend - x0),
        hmax: ceiling(s, x0, xend),
        hmin: floor(s),
    }
}

fn numbers(x: f64, h: f64) -> Numbers
    ensures { result ≡ first_numbers x h }
{
    Numbers {
        x,
        xold: x,
        xph: 0.0,
        h,
        hold: h,
        hnew: 0.0,
        hhfac: h,
        h_acc: 0.0,
        err_acc: 0.0,
        faccon: 1.0,
        theta: 0.0,
        dynold: 0.0,
        thqold: 0.0,
        xout: None,
    }
}

fn control() -> Control
    ensures { result ≡ first_control }
{
    Control {
        first: true,
        last: false,
        reject: false,
        call_jac: true,
        call_decomp: true,
        singular_count: 0,
        newt_iter: 0,
        made_here: false,
    }
}

pub fn first_run(s: Settings, n: usize, x0: f64, xend: f64, conversion: Conversion) -> Run
    ensures { result ≡ first_run s n x0 xend conversion }
{
    let fixed = fixed(s, x0, xend, conversion);
    Run {
        settings: s,
        shape: shape(n, s),
        fixed,
        counts: Counts {
            ode: 1,
            jac: 0,
            lu: 0,
            total: 0,
            accepted: 0,
            rejected: 0,
        },
        control: control(),
        numbers: numbers(x0, first_h(s, signum(xend - x0), ceiling(s, x0, xend))),
        stage: Stage::FirstDerivative,
        notes: Notes {
            singular: None,
            strides: None,
        },
    }
}

// A Full mass stays as it was given; the part of an Identity is not used.
pub fn keep_mass(mode: Mass, mass: &mut [f64])
    ensures { mass.new ≡ mass_kept mode (length mass.old) mass.old }
{
    match mode {
        Mass::Identity => zero(mass),
        Mass::Full => {}
    }
}
