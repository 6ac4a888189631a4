// Reports, and what follows them (radau.rs:337-358, 719-779).
ghost use Rattle.std.specs.Prelude.{◌≡◌, ◌+◌, ◌<◌, ◌^◌};
ghost use Rattle.solve_blocks.specs.Report.{ask_first_report, is_due, ask_report, reported_of};
ghost use Rattle.solve_blocks.specs.Report.{hnew_of, fresh_of, grown_of, renewed_of, arrived_of};
ghost use Rattle.radau_core.specs.Places.{run_at, numbers_at, Sized, call_at, step_at, heard_at};

use crate::judge::ask_derivative;
use crate::places::{
    CALL_DECOMP, CALL_JAC, DENSE_OUTPUT, DOUBLES, H, HHFAC, HMAX, HMIN, HNEW, LAST, MADE_HERE,
    MARKED, POSNEG, REJECT, SINGULAR_COUNT, THETA, WORDS, X, XEND, XOLD, XOUT,
};
use crate::stage::{at_stage, ended};
use crate::step::{Call, Heard, Step};
use scalar::{abs, clamp, min};
use state::run::{Stage, Status};
use state::talk::{Place, Reply, Request};

pub fn ask_first_report(words: &mut [usize; WORDS], doubles: &mut [f64; DOUBLES]) -> Call
    requires { Sized words.old doubles.old }
    ensures sized { Sized words.new doubles.new }
    ensures doubles_after { call_at result (run_at words.new doubles.new)
        ≡ ask_first_report (run_at words.old doubles.old) }
{
    let xold = doubles[XOLD];
    let x = doubles[X];
    at_stage(words, doubles, Stage::FirstReport);
    Call {
        request: Request::Report(xold, x, false),
        place: Place::Nowhere,
    }
}

// Whether a mark is at most x.
fn is_due(words: &[usize; WORDS], doubles: &[f64; DOUBLES]) -> bool
    ensures { result
        ≡ is_due (numbers_at words.now doubles.now).xout
        (numbers_at words.now doubles.now).x }
{
    if words[MARKED] == 0 {
        return false;
    }
    doubles[XOUT] <= doubles[X]
}

pub fn ask_report(words: &mut [usize; WORDS], doubles: &mut [f64; DOUBLES]) -> Call
    requires { Sized words.old doubles.old }
    ensures sized { Sized words.new doubles.new }
    ensures doubles_after { call_at result (run_at words.new doubles.new)
        ≡ ask_report (run_at words.old doubles.old) }
{
    let offered = (words[DENSE_OUTPUT] != 0) | is_due(words, doubles);
    let xold = doubles[XOLD];
    let x = doubles[X];
    at_stage(words, doubles, Stage::Report);
    Call {
        request: Request::Report(xold, x, offered),
        place: Place::Nowhere,
    }
}

// The reply to a report; `again` is the stage of the derivative that a modified point asks for.
pub fn reported(
    words: &mut [usize; WORDS],
    doubles: &mut [f64; DOUBLES],
    again: Stage,
    reply: Reply,
) -> Heard
    requires sized { Sized words.old doubles.old }
    requires doubles_bound { (run_at words.old doubles.old).counts.ode + 1 < 2 ^ 64 }
    ensures sized_2 { Sized words.new doubles.new }
    ensures doubles_after { heard_at result (run_at words.new doubles.new)
        ≡ reported_of again reply (run_at words.old doubles.old) }
{
    match reply {
        Reply::Filled => Heard::Reported,
        Reply::Continue => Heard::Reported,
        Reply::Interrupt => Heard::Asked(ended(words, doubles, Status::UserInterrupt)),
        Reply::Modified(x) => {
            doubles[X] = x;
            words[MADE_HERE] = 0;
            Heard::Asked(ask_derivative(words, doubles, again, Place::YToF0))
        }
        Reply::Mark(xo) => {
            words[MARKED] = 1;
            doubles[XOUT] = xo;
            Heard::Reported
        }
    }
}

// The new step, within its bounds, and after a rejection no longer than the last.
fn hnew(words: &[usize; WORDS], doubles: &[f64; DOUBLES]) -> f64
    ensures { result ≡ hnew_of (run_at words.now doubles.now) }
{
    let hnew = clamp(abs(doubles[HNEW]), doubles[HMIN], doubles[HMAX]) * doubles[POSNEG];
    if words[REJECT] != 0 {
        return doubles[POSNEG] * min(abs(hnew), abs(doubles[H]));
    }
    hnew
}

// The next attempt has the step h and new matrices.
fn fresh(words: &mut [usize; WORDS], doubles: &mut [f64; DOUBLES], h: f64)
    requires { Sized words.old doubles.old }
    ensures sized { Sized words.new doubles.new }
    ensures doubles_after { run_at words.new doubles.new
        ≡ fresh_of h (run_at words.old doubles.old) }
{
    doubles[H] = h;
    doubles[HHFAC] = h;
    words[CALL_DECOMP] = 1;
    let call_jac = doubles[THETA] >= 0.001;
    words[CALL_JAC] = call_jac as usize;
}

// A step that hardly grows is dropped, and everything kept as it is.
fn grown(words: &mut [usize; WORDS], doubles: &mut [f64; DOUBLES], hnew: f64)
    requires { Sized words.old doubles.old }
    ensures sized { Sized words.new doubles.new }
    ensures doubles_after { run_at words.new doubles.new
        ≡ grown_of (run_at words.old doubles.old) hnew }
{
    let h = doubles[H];
    let theta = doubles[THETA];
    let qt = hnew / h;
    if (theta < 0.001) & (qt > 1.0) & (qt < 1.2) {
        doubles[HHFAC] = h;
        words[CALL_DECOMP] = 0;
        words[CALL_JAC] = 0;
        return;
    }
    fresh(words, doubles, hnew);
}

// A step that reaches the end point is aimed at it.
fn renewed(words: &mut [usize; WORDS], doubles: &mut [f64; DOUBLES], hnew: f64) -> Step
    requires { Sized words.old doubles.old }
    ensures sized { Sized words.new doubles.new }
    ensures doubles_after { step_at result (run_at words.new doubles.new)
        ≡ (renewed_of (run_at words.old doubles.old) hnew).core }
{
    let xend = doubles[XEND];
    let x = doubles[X];
    if (x + hnew / 1.0 - xend) * doubles[POSNEG] >= 0.0 {
        words[LAST] = 1;
        fresh(words, doubles, xend - x);
        return Step::Main;
    }
    grown(words, doubles, hnew);
    Step::Main
}

// Past a report: an aimed attempt that was accepted ends the run.
pub fn arrived(words: &mut [usize; WORDS], doubles: &mut [f64; DOUBLES]) -> Step
    requires { Sized words.old doubles.old }
    ensures sized { Sized words.new doubles.new }
    ensures doubles_after { step_at result (run_at words.new doubles.new)
        ≡ (arrived_of (run_at words.old doubles.old)).core }
{
    if words[LAST] != 0 {
        doubles[H] = doubles[HNEW];
        return Step::Asked(ended(words, doubles, Status::Success));
    }
    let h = hnew(words, doubles);
    words[SINGULAR_COUNT] = 0;
    doubles[HNEW] = h;
    words[REJECT] = 0;
    renewed(words, doubles, h)
}
