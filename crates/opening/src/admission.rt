// The tests that stand before an advance: 13 for an unfit state, 14 for a run that has ended, 15 for a reply of another
// kind than was asked for.
ghost use Rattle.std.specs.Prelude.{◌≡◌, ◌≤◌, ◌+◌, ◌*◌, [], ◌∷◌, ◌++◌};
ghost use Rattle.state.specs.Memory.{memory, amounts, newton, given, factors, differences};
ghost use Rattle.state.specs.Lent.{memory_of};
ghost use Rattle.opening.specs.Rows.{verdict_of, range_rows};
ghost use Rattle.opening.specs.Admission.{unfit, all_unfit, asking, asking_at, answers_report, stride_below};
ghost use Rattle.opening.specs.Admission.{shape_rows, state_rows, count_rows, reply_rows, admission_rows};

use crate::checks::{
    amounts_fit, check_ranges, factors_fit, given_fit, refuse, sum_differs, vectors_fit,
};
use state::lent::Work;
use state::run::{Run, Stage, Strides};
use state::stray_pivot;
use state::talk::{Refusal, Reply};

// What is open at a stage: whether the run has ended, whether a report is asked, and the column of a
// difference Jacobian, else 0.
#[derive(Clone, Copy)]
pub struct Asking {
    pub ended: bool,
    pub report: bool,
    pub column: usize,
}

fn entry(ended: bool, report: bool, column: usize) -> Asking
    ensures { result ≡ asking ended report column }
{
    Asking {
        ended,
        report,
        column,
    }
}

// What is asked at each stage, for whoever holds a run.
pub fn asking_at(stage: Stage) -> Asking
    ensures { result ≡ asking_at stage }
{
    match stage {
        Stage::FirstDerivative => entry(false, false, 0),
        Stage::FirstReport => entry(false, true, 0),
        Stage::FirstDerivativeAgain => entry(false, false, 0),
        Stage::Jacobian => entry(false, false, 0),
        Stage::Column(c) => entry(false, false, c),
        Stage::Newton1 => entry(false, false, 0),
        Stage::Newton2 => entry(false, false, 0),
        Stage::Newton3 => entry(false, false, 0),
        Stage::Refinement => entry(false, false, 0),
        Stage::Accepted => entry(false, false, 0),
        Stage::Report => entry(false, true, 0),
        Stage::DerivativeAgain => entry(false, false, 0),
        Stage::Ended(_) => entry(true, false, 0),
    }
}

fn answers_report(reply: Reply) -> bool
    ensures { result ≡ answers_report reply }
{
    match reply {
        Reply::Filled => false,
        Reply::Continue => true,
        Reply::Interrupt => true,
        Reply::Modified(_) => true,
        Reply::Mark(_) => true,
    }
}

// 14 and 15.
fn check_reply(stage: Stage, reply: Reply) -> Result<(), Refusal>
    ensures { result ≡ verdict_of (reply_rows stage reply) }
{
    let asked = asking_at(stage);
    refuse(asked.ended, Refusal::HasEnded)?;
    refuse(asked.report != answers_report(reply), Refusal::WrongReply)
}

// An unfit state.
fn unfit(holds: bool) -> Result<(), Refusal>
    ensures { result ≡ verdict_of (unfit holds ∷ []) }
{
    refuse(holds, Refusal::Unfit)
}

// 13: the settings, and with them the factors of the products below.
fn check_settings(run: Run) -> Result<(), Refusal>
    ensures { result ≡ verdict_of (all_unfit (range_rows run.settings)) }
{
    match check_ranges(run.settings) {
        Ok(()) => Ok(()),
        Err(_) => Err(Refusal::Unfit),
    }
}

// 13: partition, attempts, rounds, column, failures and pivots.
fn check_state(run: Run, ip1: &[usize], ip2: &[usize]) -> Result<(), Refusal>
    requires { run.shape.n ≤ 32 }
    ensures { result ≡ verdict_of (state_rows run ip1.now ip2.now) }
{
    let shape = run.shape;
    let n = shape.n;
    let asked = asking_at(run.stage);
    let going = !asked.ended;
    unfit(sum_differs(n, shape.nind1, shape.nind2, shape.nind3))?;
    unfit((run.settings.max_steps < run.counts.total) & going)?;
    unfit(run.settings.newton_maxiter < run.control.newt_iter)?;
    unfit(n < asked.column)?;
    unfit((5 < run.control.singular_count) & going)?;
    unfit(stray_pivot(n, ip1))?;
    unfit(stray_pivot(n, ip2))
}

// Whether either is negative: a NaN and -0 are not.
fn stride_below(strides: Option<Strides>) -> bool
    ensures { result ≡ stride_below strides }
{
    match strides {
        None => false,
        Some(between) => (between.smallest < 0.0) | (between.largest < 0.0),
    }
}

// 13: the counts, against bounds of M and K that are known to be in range, and the strides.
fn check_counts(run: Run) -> Result<(), Refusal>
    requires { (run.settings.max_steps ≤ 1_000_000) × (run.settings.newton_maxiter ≤ 16) }
    ensures { result ≡ verdict_of (count_rows run) }
{
    let m = run.settings.max_steps;
    let k = run.settings.newton_maxiter;
    let counts = run.counts;
    unfit(2 + 3 * (k + 1) * m < counts.ode)?;
    unfit(6 * (m + 1) < counts.jac)?;
    unfit(13 * m + 12 < counts.lu)?;
    unfit(m < counts.accepted)?;
    unfit(2 * m < counts.rejected)?;
    unfit(stride_below(run.notes.strides))
}

// The tests behind those of n and the lengths.
fn admit(run: Run, reply: Reply, ip1: &[usize], ip2: &[usize]) -> Result<(), Refusal>
    requires { run.shape.n ≤ 32 }
    ensures { result
        ≡ verdict_of (all_unfit (range_rows run.settings)
        ++ (state_rows run ip1.now ip2.now ++ (count_rows run ++ reply_rows run.stage reply))) }
{
    check_settings(run)?;
    check_state(run, ip1, ip2)?;
    check_counts(run)?;
    check_reply(run.stage, reply)
}

// Whether an advance of this run by this reply is admitted, or refused with 13, 14 or 15: document 01's clauses one by
// one. Nothing is written.
pub fn admission(
    run: Run,
    reply: Reply,
    y: &[f64],
    f0: &[f64],
    scal: &[f64],
    cont: &[f64],
    z1: &[f64],
    z2: &[f64],
    z3: &[f64],
    f1: &[f64],
    f2: &[f64],
    f3: &[f64],
    rtol: &[f64],
    atol: &[f64],
    mass: &[f64],
    jac: &[f64],
    e1: &[f64],
    e2r: &[f64],
    e2i: &[f64],
    ip1: &[usize],
    ip2: &[usize],
    y_perturbed: &[f64],
    f_perturbed: &[f64],
    f_origin: &[f64],
) -> Result<(), Refusal>
    ensures { result
        ≡ verdict_of (admission_rows run reply (memory
        (amounts y.now f0.now scal.now cont.now)
        (newton z1.now z2.now z3.now
        f1.now f2.now f3.now)
        (given rtol.now atol.now mass.now jac.now)
        (factors e1.now e2r.now e2i.now ip1.now ip2.now)
        (differences y_perturbed.now f_perturbed.now f_origin.now))) }
{
    let shape = run.shape;
    let n = shape.n;
    if (n < 1) | (32 < n) {
        return Err(Refusal::Unfit);
    }
    let fit = amounts_fit(n, y.len(), f0.len(), scal.len(), cont.len())
        & vectors_fit(n, z1.len(), z2.len(), z3.len())
        & vectors_fit(n, f1.len(), f2.len(), f3.len())
        & given_fit(n, rtol.len(), atol.len(), mass.len(), jac.len())
        & factors_fit(n, e1.len(), e2r.len(), e2i.len(), ip1.len(), ip2.len())
        & vectors_fit(n, y_perturbed.len(), f_perturbed.len(), f_origin.len());
    if !fit {
        return Err(Refusal::Unfit);
    }
    admit(run, reply, ip1, ip2)
}

// As `admission`, the working parts as one.
pub fn admission_lent(
    run: Run,
    reply: Reply,
    y: &[f64],
    f0: &[f64],
    rtol: &[f64],
    atol: &[f64],
    mass: &[f64],
    work: &Work<'_>,
) -> Result<(), Refusal>
    ensures { result
        ≡ verdict_of (admission_rows run reply (memory_of y.now f0.now rtol.now atol.now mass.now work.now)) }
{
    admission(
        run,
        reply,
        y,
        f0,
        work.scal,
        work.cont,
        work.z1,
        work.z2,
        work.z3,
        work.f1,
        work.f2,
        work.f3,
        rtol,
        atol,
        mass,
        work.jac,
        work.e1,
        work.e2r,
        work.e2i,
        work.ip1,
        work.ip2,
        work.y_perturbed,
        work.f_perturbed,
        work.f_origin,
    )
}
