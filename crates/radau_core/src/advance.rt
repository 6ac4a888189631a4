// An advance: a reply takes the run from one call of the host in `solve` to the next.
ghost use Rattle.std.specs.Prelude.{◌≡◌, ◌*◌, List, length, Float};
ghost use Rattle.words.specs.Grid.{Square};
ghost use Rattle.state.specs.Talk.{passed_all};
ghost use Rattle.state.specs.Memory.{Newton, Given, Factors, Differences, memory};
ghost use Rattle.state.specs.Lent.{memory_of, newton_in, SameWork, SameLengths};
ghost use Rattle.state.specs.Memory.{amounts, given};
ghost use Rattle.solve_blocks.specs.Advance.{stepped, started_of, returned_of, conclude_of, replied_of};
ghost use Rattle.solve_blocks.specs.Advance.{called, called_of, advance_outcome, advance_by};
ghost use Rattle.solve_blocks.specs.Needs.{Fit, StepFit, RoundFit, HeardFit, MemoryLong, NewtonLong, StageFit};
ghost use Rattle.radau_core.specs.Places.{run_at, Sized, call_at, step_at, round_at, heard_at, shape_at};

use crate::attempt::{ask_stage, attempt};
use crate::jacobian::{ask_jacobian, column};
use crate::judge::{estimate, refined};
use crate::kept::tolerances_at;
use crate::passes::passes;
use crate::places::{DOUBLES, H, N, PART, STAGE, WORDS, X, XPH};
use crate::report::{arrived, ask_first_report, ask_report, reported};
use crate::round::{again, round};
use crate::scale::scaled;
use crate::stage::{ended, status_at};
use crate::step::{Call, Heard, Round, Step};
use scalar::coefficients::C2;
use state::lent::Work;
use state::run::Stage;
use state::talk::{Place, Reply};

// Past the first report: the scale, then the passes.
fn started(
    words: &[usize; WORDS],
    doubles: &[f64; DOUBLES],
    heard: Heard,
    rtol: &[f64],
    atol: &[f64],
    y: &[f64],
    scal: &mut [f64],
) -> Step
    requires { HeardFit 15 (length y.now) (heard_at heard (run_at words.now doubles.now))
        × (length rtol.now ≡ length y.now)
        × (length atol.now ≡ length y.now)
        × (length scal.old ≡ length y.now) }
    ensures { (f0 cont mass jac : List Float) (z : Newton) (f : Factors) (d : Differences)
        → stepped (step_at result (run_at words.now doubles.now)) (memory
        (amounts y.now f0 scal.new cont)
        z
        (given rtol.now atol.now mass jac)
        f d)
        ≡ started_of (heard_at heard (run_at words.now doubles.now)) (memory
        (amounts y.now f0 scal.old cont)
        z
        (given rtol.now atol.now mass jac)
        f d) }
{
    match heard {
        Heard::Asked(call) => Step::Asked(call),
        Heard::Reported => {
            let n = words[N];
            let tolerances = tolerances_at(words, doubles);
            scaled(n, tolerances, rtol, atol, y, scal);
            Step::Main
        }
    }
}

// Past a later one.
fn returned(words: &mut [usize; WORDS], doubles: &mut [f64; DOUBLES], heard: Heard) -> Step
    requires { Sized words.old doubles.old }
    ensures sized { Sized words.new doubles.new }
    ensures doubles_after { step_at result (run_at words.new doubles.new)
        ≡ (returned_of (heard_at heard (run_at words.old doubles.old))).core }
{
    match heard {
        Heard::Asked(call) => Step::Asked(call),
        Heard::Reported => arrived(words, doubles),
    }
}

// Past a round of the Newton iteration.
fn conclude(
    words: &mut [usize; WORDS],
    doubles: &mut [f64; DOUBLES],
    verdict: Round,
    mass: &[f64],
    f0: &[f64],
    y: &mut [f64],
    work: &mut Work<'_>,
) -> Step
    requires sized { Sized words.old doubles.old }
    requires round_fit { RoundFit 15 (length y.old) (round_at verdict (run_at words.old doubles.old))
        × Square (length y.old) mass.now
        × (length f0.now ≡ length y.old)
        × (length work.old.scal.now ≡ length y.old)
        × (length work.old.cont.now ≡ 4 * length y.old) }
    requires z1_len { (length work.old.z1.now ≡ length y.old)
        × (length work.old.z2.now ≡ length y.old)
        × (length work.old.z3.now ≡ length y.old)
        × (length work.old.f1.now ≡ length y.old)
        × (length work.old.f2.now ≡ length y.old) }
    ensures same { SameWork work.new work.old }
    ensures lengths { SameLengths work.new work.old }
    ensures sized_2 { Sized words.new doubles.new }
    ensures d_after { (rtol atol : List Float)
        → stepped (step_at result (run_at words.new doubles.new))
        (memory_of y.new f0.now rtol atol mass.now work.new)
        ≡ (conclude_of (round_at verdict (run_at words.old doubles.old))
        (memory_of y.old f0.now rtol atol mass.now work.old)).core }
{
    match verdict {
        Round::Newton => {
            let z1 = &mut *work.z1;
            again(words, doubles, y, z1, work.cont)
        }
        Round::Estimate => estimate(words, doubles, mass, f0, y, work),
        Round::Over(step) => step,
    }
}

// What a reply of the kind asked for leads to, stage by stage.
fn replied(
    words: &mut [usize; WORDS],
    doubles: &mut [f64; DOUBLES],
    reply: Reply,
    y: &mut [f64],
    f0: &[f64],
    rtol: &[f64],
    atol: &[f64],
    mass: &[f64],
    work: &mut Work<'_>,
) -> Step
    requires sized { Sized words.old doubles.old }
    requires fit { Fit 16 (shape_at words.old).n (run_at words.old doubles.old)
        × StageFit (shape_at words.old).n (run_at words.old doubles.old) }
    requires memory_long { MemoryLong (shape_at words.old).n
        (memory_of y.old f0.now rtol.now atol.now mass.now work.old) }
    ensures same { SameWork work.new work.old }
    ensures lengths { SameLengths work.new work.old }
    ensures sized_2 { Sized words.new doubles.new }
    ensures f_origin_after { stepped (step_at result (run_at words.new doubles.new))
        (memory_of y.new f0.now rtol.now atol.now mass.now work.new)
        ≡ (replied_of (run_at words.old doubles.old).stage reply
        (run_at words.old doubles.old)
        (memory_of y.old f0.now rtol.now atol.now mass.now work.old)).core }
{
    let stage = words[STAGE];
    match stage {
        1 => {
            let heard = reported(words, doubles, Stage::FirstDerivativeAgain, reply);
            started(words, doubles, heard, rtol, atol, y, work.scal)
        }
        2 => started(words, doubles, Heard::Reported, rtol, atol, y, work.scal),
        3 => Step::Matrices,
        4 => {
            let c = words[PART];
            let f_perturbed = &mut *work.f_perturbed;
            let f_origin = &mut *work.f_origin;
            column(
                words,
                doubles,
                c,
                y,
                work.y_perturbed,
                f_perturbed,
                f_origin,
                work.jac,
            )
        }
        5 => {
            let x = doubles[X] + C2 * doubles[H];
            let z2 = &mut *work.z2;
            Step::Asked(ask_stage(
                words,
                doubles,
                Stage::Newton2,
                x,
                Place::ContToZ2,
                y,
                z2,
                work.cont,
            ))
        }
        6 => {
            let x = doubles[XPH];
            let z3 = &mut *work.z3;
            Step::Asked(ask_stage(
                words,
                doubles,
                Stage::Newton3,
                x,
                Place::ContToZ3,
                y,
                z3,
                work.cont,
            ))
        }
        7 => {
            let verdict = round(words, doubles, mass, work);
            conclude(words, doubles, verdict, mass, f0, y, work)
        }
        8 => refined(words, doubles, y, work),
        9 => {
            let n = words[N];
            let tolerances = tolerances_at(words, doubles);
            scaled(n, tolerances, rtol, atol, y, work.scal);
            Step::Asked(ask_report(words, doubles))
        }
        10 => {
            let heard = reported(words, doubles, Stage::DerivativeAgain, reply);
            returned(words, doubles, heard)
        }
        11 => arrived(words, doubles),
        12 => {
            let status = status_at(words[PART]);
            Step::Asked(ended(words, doubles, status))
        }
        _ => Step::Asked(ask_first_report(words, doubles)),
    }
}

// Past the matrices: the call that is open, a Jacobian, or an attempt.
fn called(
    words: &mut [usize; WORDS],
    doubles: &mut [f64; DOUBLES],
    step: Step,
    y: &[f64],
    work: &mut Work<'_>,
) -> Call
    requires sized { Sized words.old doubles.old }
    requires step_fit { StepFit 2 (length y.now) (step_at step (run_at words.old doubles.old))
        × (length work.old.scal.now ≡ length y.now)
        × (length work.old.cont.now ≡ 4 * length y.now)
        × NewtonLong (length y.now) (newton_in work.old) }
    requires y_perturbed_len { (length work.old.y_perturbed.now ≡ length y.now)
        × (length work.old.f_perturbed.now ≡ length y.now)
        × (length work.old.f_origin.now ≡ length y.now) }
    ensures same { SameWork work.new work.old }
    ensures sized_2 { Sized words.new doubles.new }
    ensures f_origin_after { (f0 rtol atol mass : List Float)
        → called (call_at result (run_at words.new doubles.new)) (memory_of y.now f0 rtol atol mass work.new)
        ≡ (called_of (step_at step (run_at words.old doubles.old))
        (memory_of y.now f0 rtol atol mass work.old)).core }
{
    match step {
        Step::Asked(call) => call,
        Step::Main => {
            ask_jacobian(
                words,
                doubles,
                y,
                work.y_perturbed,
                work.f_perturbed,
                work.f_origin,
            )
        }
        Step::Matrices => {
            ask_jacobian(
                words,
                doubles,
                y,
                work.y_perturbed,
                work.f_perturbed,
                work.f_origin,
            )
        }
        Step::Attempt => { attempt(words, doubles, y, work) }
    }
}

// The next request of a run that is fit, in memory that is; who calls has seen to both.
pub fn advanced(
    words: &mut [usize; WORDS],
    doubles: &mut [f64; DOUBLES],
    reply: Reply,
    y: &mut [f64],
    f0: &[f64],
    rtol: &[f64],
    atol: &[f64],
    mass: &[f64],
    work: &mut Work<'_>,
) -> Call
    requires sized { Sized words.old doubles.old }
    requires fit { Fit 16 (shape_at words.old).n (run_at words.old doubles.old)
        × StageFit (shape_at words.old).n (run_at words.old doubles.old) }
    requires memory_long { MemoryLong (shape_at words.old).n
        (memory_of y.old f0.now rtol.now atol.now mass.now work.old) }
    ensures same { SameWork work.new work.old }
    ensures sized_2 { Sized words.new doubles.new }
    ensures f_origin_after { advance_outcome
        (Ok (call_at result (run_at words.new doubles.new)))
        (memory_of y.new f0.now rtol.now atol.now mass.now work.new)
        ≡ (advance_by passed_all (run_at words.old doubles.old) reply
        (memory_of y.old f0.now rtol.now atol.now mass.now work.old)).core }
{
    let n = words[N];
    let step = replied(words, doubles, reply, y, f0, rtol, atol, mass, work);
    // Most replies lead straight to the next request.
    if let Step::Asked(call) = step {
        return call;
    }
    let jac = &mut *work.jac;
    let past = passes(
        words, doubles, n, step, mass, jac, work.e1, work.e2r, work.e2i, work.ip1, work.ip2,
    );
    called(words, doubles, past, y, work)
}
