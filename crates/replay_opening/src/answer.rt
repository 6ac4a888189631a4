// The answer to an opening, held against what is wanted.
use crate::case::{
    Case, OUTCOME, WANTED_ATOL, WANTED_H, WANTED_HMAX, WANTED_HMIN, WANTED_NEWTON_TOL,
    WANTED_NIND1, WANTED_NIND2, WANTED_NIND3, WANTED_ODE, WANTED_POSNEG, WANTED_RTOL,
};
use replay::found::Found;
use replay::memory::Entry;
use replay::settings::{
    BOOK, DENSE_OUTPUT, FIRST_STEP, FIRST_STEP_GIVEN, HOST, LISTS, MASS_FULL, MAX_STEP,
    MAX_STEP_GIVEN, MAX_STEPS, MIN_STEP, MIN_STEP_GIVEN, N, NEWTON_MAXITER, NEWTON_TOL,
    NEWTON_TOL_GIVEN, NIND1, NIND1_GIVEN, NIND2, NIND2_GIVEN, NIND3, NIND3_GIVEN, PREDICTIVE,
    SAFETY_FACTOR, SCALE_MAX, SCALE_MIN, UROUND, X0, XEND,
};
use replay::word::quarter;
use state::refusal_number;
use state::run::{Control, Counts, Fixed, Numbers, Run, Shape, Stage, Tolerances};
use state::settings::{Mass, Rule, Settings, Source};
use state::talk::{Call, Place, Refusal, Request, Value};

const ONE: u64 = 0x3ff0_0000_0000_0000;

// The numbers of the floats that may fail, from 1 in the order of the tests.
fn float(value: Value) -> u64 {
    match value {
        Value::X0 => 1,
        Value::Xend => 2,
        Value::Amount(_) => 3,
        Value::MassEntry(_) => 4,
        Value::Rtol(_) => 5,
        Value::Atol(_) => 6,
        Value::Uround => 7,
        Value::SafetyFactor => 8,
        Value::ScaleMin => 9,
        Value::ScaleMax => 10,
        Value::MaxStep => 11,
        Value::MinStep => 12,
        Value::NewtonTol => 13,
        Value::FirstStep => 14,
    }
}

fn place(value: Value) -> u64 {
    match value {
        Value::Amount(i) | Value::MassEntry(i) | Value::Rtol(i) | Value::Atol(i) => i as u64,
        _ => 0,
    }
}

// The float that a refusal tells, and its place in a list, or 0.
fn told(refusal: Refusal) -> (u64, u64) {
    match refusal {
        Refusal::NotFinite(value) | Refusal::Tolerance(value) => (float(value), place(value)),
        Refusal::MaxStep => (float(Value::MaxStep), 0),
        Refusal::MinStep => (float(Value::MinStep), 0),
        _ => (0, 0),
    }
}

fn met_refusal(found: Found, case: Case, refusal: Refusal) -> Found {
    let outcome = case.words[OUTCOME];
    let (float, place) = told(refusal);
    found
        .compared(refusal_number(refusal), quarter(outcome, 0))
        .compared(float, quarter(outcome, 1))
        .compared(place, quarter(outcome, 2))
}

// What may be absent: whether it is given, and then the value.
fn met_given<E: Entry>(found: Found, gave: Option<E>, given: bool, wanted: u64) -> Found {
    match gave {
        None => found.truth(false, given),
        Some(value) => found.truth(true, given).compared(value.to_word(), wanted),
    }
}

fn met_switches(found: Found, case: Case, settings: Settings) -> Found {
    found
        .truth(settings.predictive, case.choice(PREDICTIVE))
        .truth(settings.dense_output, case.choice(DENSE_OUTPUT))
        .truth(matches!(settings.mass, Mass::Full), case.choice(MASS_FULL))
        .truth(matches!(settings.source, Source::Host), case.choice(HOST))
        .truth(matches!(settings.rule, Rule::Book), case.choice(BOOK))
}

fn met_wholes(found: Found, case: Case, settings: Settings) -> Found {
    let words = case.words;
    let now = found
        .compared(settings.max_steps as u64, words[MAX_STEPS])
        .compared(settings.newton_maxiter as u64, words[NEWTON_MAXITER]);
    let now = met_given(now, settings.nind1, case.choice(NIND1_GIVEN), words[NIND1]);
    let now = met_given(now, settings.nind2, case.choice(NIND2_GIVEN), words[NIND2]);
    met_given(now, settings.nind3, case.choice(NIND3_GIVEN), words[NIND3])
}

fn met_steps(found: Found, case: Case, settings: Settings) -> Found {
    let words = case.words;
    let now = met_given(
        found,
        settings.max_step,
        case.choice(MAX_STEP_GIVEN),
        words[MAX_STEP],
    );
    let now = met_given(
        now,
        settings.min_step,
        case.choice(MIN_STEP_GIVEN),
        words[MIN_STEP],
    );
    let now = met_given(
        now,
        settings.newton_tol,
        case.choice(NEWTON_TOL_GIVEN),
        words[NEWTON_TOL],
    );
    met_given(
        now,
        settings.first_step,
        case.choice(FIRST_STEP_GIVEN),
        words[FIRST_STEP],
    )
}

// The settings of the run are those of the opening.
fn met_settings(found: Found, case: Case, settings: Settings) -> Found {
    let words = case.words;
    let floats = found
        .double(settings.uround, words[UROUND])
        .double(settings.safety_factor, words[SAFETY_FACTOR])
        .double(settings.scale_min, words[SCALE_MIN])
        .double(settings.scale_max, words[SCALE_MAX]);
    let wholes = met_wholes(floats, case, settings);
    met_switches(met_steps(wholes, case, settings), case, settings)
}

fn met_shape(found: Found, case: Case, shape: Shape) -> Found {
    let words = case.words;
    found
        .compared(shape.n as u64, words[N])
        .compared(shape.nind1 as u64, words[WANTED_NIND1])
        .compared(shape.nind2 as u64, words[WANTED_NIND2])
        .compared(shape.nind3 as u64, words[WANTED_NIND3])
}

fn met_scalars(found: Found, case: Case, tolerances: Tolerances) -> Found {
    let words = case.words;
    let lists = case.choice(LISTS);
    match tolerances {
        Tolerances::Lists => found.truth(true, lists),
        Tolerances::Scalars(rtol, atol) => found
            .truth(false, lists)
            .double(rtol, words[WANTED_RTOL])
            .double(atol, words[WANTED_ATOL]),
    }
}

fn met_fixed(found: Found, case: Case, fixed: Fixed) -> Found {
    let words = case.words;
    let tolerances = fixed.tolerances;
    met_scalars(found, case, tolerances)
        .double(fixed.newton_tol, words[WANTED_NEWTON_TOL])
        .double(fixed.xend, words[XEND])
        .double(fixed.posneg, words[WANTED_POSNEG])
        .double(fixed.hmax, words[WANTED_HMAX])
        .double(fixed.hmin, words[WANTED_HMIN])
}

fn met_counts(found: Found, case: Case, counts: Counts) -> Found {
    let words = case.words;
    found
        .compared(counts.ode as u64, words[WANTED_ODE])
        .compared(counts.jac as u64, 0)
        .compared(counts.lu as u64, 0)
        .compared(counts.total as u64, 0)
        .compared(counts.accepted as u64, 0)
        .compared(counts.rejected as u64, 0)
}

fn met_control(found: Found, control: Control) -> Found {
    found
        .truth(control.first, true)
        .truth(control.last, false)
        .truth(control.reject, false)
        .truth(control.call_jac, true)
        .truth(control.call_decomp, true)
        .compared(control.singular_count as u64, 0)
        .compared(control.newt_iter as u64, 0)
        .truth(control.made_here, false)
}

// Points and steps; what the Rust sets later is +0.
fn met_numbers(found: Found, case: Case, numbers: Numbers) -> Found {
    let words = case.words;
    let steps = found
        .double(numbers.x, words[X0])
        .double(numbers.xold, words[X0])
        .double(numbers.h, words[WANTED_H])
        .double(numbers.hold, words[WANTED_H])
        .double(numbers.hhfac, words[WANTED_H])
        .double(numbers.faccon, ONE);
    let later = steps
        .double(numbers.xph, 0)
        .double(numbers.hnew, 0)
        .double(numbers.h_acc, 0)
        .double(numbers.err_acc, 0)
        .double(numbers.theta, 0)
        .double(numbers.dynold, 0)
        .double(numbers.thqold, 0);
    met_given(later, numbers.xout, false, 0)
}

fn met_run(found: Found, case: Case, run: Run) -> Found {
    let first = found.truth(matches!(run.stage, Stage::FirstDerivative), true);
    let now = met_settings(first, case, run.settings);
    let now = met_fixed(met_shape(now, case, run.shape), case, run.fixed);
    let now = met_control(met_counts(now, case, run.counts), run.control);
    met_numbers(now, case, run.numbers)
}

// The first request is the derivative at x0.
fn met_request(found: Found, case: Case, request: Request) -> Found {
    match request {
        Request::Derivative(x) => found.truth(true, true).double(x, case.words[X0]),
        _ => found.truth(false, true),
    }
}

// The first value compared is the number of the row, 0 where the opening is accepted. The first request takes the
// amounts from y and is to fill f0.
pub fn met_answer(case: Case, answer: Result<Call, Refusal>) -> Found {
    let nothing = Found::nothing();
    match answer {
        Err(refusal) => met_refusal(nothing, case, refusal),
        Ok(call) => {
            let accepted = nothing.compared(0, case.row());
            let asked = met_request(accepted, case, call.request);
            met_run(
                asked.truth(matches!(call.place, Place::YToF0), true),
                case,
                call.run,
            )
        }
    }
}
