// An attempt whose Newton iteration is over is judged by its error (radau.rs:622-712, 780-795).
ghost use Rattle.std.specs.Prelude.{◌≡◌, ◌+◌, ◌*◌, ◌≤◌, ◌<◌, ◌^◌, List, length, Float};
ghost use Rattle.words.specs.Grid.{Square};
ghost use Rattle.state.specs.MemorySetters.{set_y_cont, set_f12};
ghost use Rattle.state.specs.Lent.{memory_of, newton_in, SameWork, SameLengths};
ghost use Rattle.solve_blocks.specs.Entries.{three};
ghost use Rattle.solve_blocks.specs.Judge.{moved, moved_of, judged, judged_of};
ghost use Rattle.solve_blocks.specs.Judge.{estimated, tested_of, estimate_of, refined_of};
ghost use Rattle.solve_blocks.specs.Matrices.{ask_derivative};
ghost use Rattle.solve_blocks.specs.Needs.{Fit};
ghost use Rattle.radau_core.specs.Places.{run_at, Sized, call_at, step_at, shape_at};

use crate::control::{accepted, quot, rejected};
use crate::estimate::{defect, error, error_sides, plus, solve_first, sum};
use crate::kept::mass_mode;
use crate::passes::counted;
use crate::places::{DOUBLES, FIRST, H, HNEW, MASS, N, ODE, REJECT, WORDS, X};
use crate::stage::at_stage;
use crate::step::{Call, Step};
use scalar::coefficients::{C1, C1M1, C1MC2, C2, C2M1};
use state::lent::Work;
use state::run::Stage;
use state::talk::{Place, Request};

// The new amounts, and the coefficients of the dense output.
fn moved(n: usize, z1: &[f64], z2: &[f64], z3: &[f64], y: &mut [f64], cont: &mut [f64])
    requires { (n ≤ 32)
        × (length z1.now ≡ n)
        × (length z2.now ≡ n)
        × (length z3.now ≡ n)
        × (length y.old ≡ n)
        × (length cont.old ≡ 4 * n) }
    ensures { moved y.new cont.new
        ≡ moved_of n (three z1.now z2.now z3.now)
        (moved y.old cont.old) }
{
    for i in 0..n {
        let v = y[i] + z3[i];
        let ak = (z1[i] - z2[i]) / C1MC2;
        let acont3 = (ak - z1[i] / C1) / C2;
        let c1 = (z2[i] - z3[i]) / C2M1;
        let c2 = (ak - c1) / C1M1;
        y[i] = v;
        cont[i] = v;
        cont[n + i] = c1;
        cont[2 * n + i] = c2;
        cont[3 * n + i] = c2 - acont3;
    }
}

// A derivative is asked at the run's x.
pub fn ask_derivative(
    words: &mut [usize; WORDS],
    doubles: &mut [f64; DOUBLES],
    stage: Stage,
    place: Place,
) -> Call
    requires sized { Sized words.old doubles.old }
    requires doubles_bound { (run_at words.old doubles.old).counts.ode + 1 < 2 ^ 64 }
    ensures sized_2 { Sized words.new doubles.new }
    ensures doubles_after { call_at result (run_at words.new doubles.new)
        ≡ ask_derivative (run_at words.old doubles.old) stage
        (run_at words.old doubles.old).numbers.x place }
{
    words[ODE] = words[ODE] + 1;
    let x = doubles[X];
    at_stage(words, doubles, stage);
    Call {
        request: Request::Derivative(x),
        place,
    }
}

// An acceptance asks for the derivative at the new point, a rejection leads to the next pass.
fn judge(
    words: &mut [usize; WORDS],
    doubles: &mut [f64; DOUBLES],
    err: f64,
    z1: &[f64],
    z2: &[f64],
    z3: &[f64],
    y: &mut [f64],
    cont: &mut [f64],
) -> Step
    requires sized { Sized words.old doubles.old }
    requires fit { Fit 1 (shape_at words.old).n (run_at words.old doubles.old) }
    requires z1_len { (length z1.now ≡ (shape_at words.old).n)
        × (length z2.now ≡ (shape_at words.old).n)
        × (length z3.now ≡ (shape_at words.old).n)
        × (length y.old ≡ (shape_at words.old).n)
        × (length cont.old ≡ 4 * (shape_at words.old).n) }
    ensures sized_2 { Sized words.new doubles.new }
    ensures cont_after { judged (step_at result (run_at words.new doubles.new))
        y.new cont.new
        ≡ (judged_of (run_at words.old doubles.old) err
        (three z1.now z2.now z3.now) y.old cont.old).core }
{
    let q = quot(words, doubles, err);
    if err <= 1.0 {
        let n = words[N];
        moved(n, z1, z2, z3, y, cont);
        accepted(words, doubles, err, q);
        return Step::Asked(ask_derivative(words, doubles, Stage::Accepted, Place::YToF0));
    }
    let hnew = doubles[H] / q;
    doubles[HNEW] = hnew;
    rejected(words, doubles, hnew);
    Step::Main
}

// Before the first acceptance and after a rejection an error that is too large is refined by one
// derivative, at the old x.
fn tested(
    words: &mut [usize; WORDS],
    doubles: &mut [f64; DOUBLES],
    err: f64,
    z1: &[f64],
    z2: &[f64],
    z3: &[f64],
    y: &mut [f64],
    cont: &mut [f64],
) -> Step
    requires sized { Sized words.old doubles.old }
    requires fit { Fit 1 (shape_at words.old).n (run_at words.old doubles.old) }
    requires z1_len { (length z1.now ≡ (shape_at words.old).n)
        × (length z2.now ≡ (shape_at words.old).n)
        × (length z3.now ≡ (shape_at words.old).n)
        × (length y.old ≡ (shape_at words.old).n)
        × (length cont.old ≡ 4 * (shape_at words.old).n) }
    ensures sized_2 { Sized words.new doubles.new }
    ensures cont_after { judged (step_at result (run_at words.new doubles.new))
        y.new cont.new
        ≡ (tested_of (run_at words.old doubles.old) err
        (three z1.now z2.now z3.now) y.old cont.old).core }
{
    let n = words[N];
    if (err >= 1.0) & ((words[FIRST] != 0) | (words[REJECT] != 0)) {
        plus(n, y, cont);
        return Step::Asked(ask_derivative(words, doubles, Stage::Refinement, Place::ContToF1));
    }
    judge(words, doubles, err, z1, z2, z3, y, cont)
}

// The first estimate.
pub fn estimate(
    words: &mut [usize; WORDS],
    doubles: &mut [f64; DOUBLES],
    mass: &[f64],
    f0: &[f64],
    y: &mut [f64],
    work: &mut Work<'_>,
) -> Step
    requires sized { Sized words.old doubles.old }
    requires fit { Fit 2 (shape_at words.old).n (run_at words.old doubles.old)
        × Square (shape_at words.old).n mass.now
        × (length f0.now ≡ (shape_at words.old).n)
        × (length work.old.scal.now ≡ (shape_at words.old).n)
        × (length y.old ≡ (shape_at words.old).n)
        × (length work.old.cont.now ≡ 4 * (shape_at words.old).n) }
    requires z1_len { (length work.old.z1.now ≡ (shape_at words.old).n)
        × (length work.old.z2.now ≡ (shape_at words.old).n)
        × (length work.old.z3.now ≡ (shape_at words.old).n)
        × (length work.old.f1.now ≡ (shape_at words.old).n)
        × (length work.old.f2.now ≡ (shape_at words.old).n) }
    ensures same { SameWork work.new work.old }
    ensures lengths { SameLengths work.new work.old }
    ensures kept { (rtol atol : List Float)
        → memory_of y.new f0.now rtol atol mass.now work.new
        ≡ set_f12 work.new.f1.now work.new.f2.now (set_y_cont y.new work.new.cont.now
        (memory_of y.old f0.now rtol atol mass.now work.old)) }
    ensures sized_2 { Sized words.new doubles.new }
    ensures f2_after { estimated (step_at result (run_at words.new doubles.new))
        y.new work.new.cont.now work.new.f1.now work.new.f2.now
        ≡ (estimate_of (run_at words.old doubles.old)
        mass.now work.old.e1.now work.old.ip1.now f0.now
        work.old.scal.now y.old work.old.cont.now (newton_in work.old)).core }
{
    let mode = mass_mode(words[MASS]);
    let n = words[N];
    let h = doubles[H];
    let e1 = &mut *work.e1;
    let ip1 = &mut *work.ip1;
    let scal = &mut *work.scal;
    let cont = &mut *work.cont;
    let z1 = &mut *work.z1;
    let z2 = &mut *work.z2;
    let z3 = &mut *work.z3;
    let f1 = &mut *work.f1;
    let f2 = &mut *work.f2;
    defect(n, h, z1, z2, z3, f1);
    error_sides(mode, n, mass, f0, f1, f2, cont);
    solve_first(n, e1, ip1, cont);
    let err = error(n, scal, cont);
    counted(words, doubles);
    tested(words, doubles, err, z1, z2, z3, y, cont)
}

// The second, from the derivative that was asked.
pub fn refined(
    words: &mut [usize; WORDS],
    doubles: &mut [f64; DOUBLES],
    y: &mut [f64],
    work: &mut Work<'_>,
) -> Step
    requires sized { Sized words.old doubles.old }
    requires fit { Fit 1 (shape_at words.old).n (run_at words.old doubles.old)
        × (length work.old.scal.now ≡ (shape_at words.old).n)
        × (length y.old ≡ (shape_at words.old).n)
        × (length work.old.cont.now ≡ 4 * (shape_at words.old).n) }
    requires z1_len { (length work.old.z1.now ≡ (shape_at words.old).n)
        × (length work.old.z2.now ≡ (shape_at words.old).n)
        × (length work.old.z3.now ≡ (shape_at words.old).n)
        × (length work.old.f1.now ≡ (shape_at words.old).n)
        × (length work.old.f2.now ≡ (shape_at words.old).n) }
    ensures same { SameWork work.new work.old }
    ensures lengths { SameLengths work.new work.old }
    ensures kept { (f0 rtol atol mass : List Float)
        → memory_of y.new f0 rtol atol mass work.new
        ≡ set_y_cont y.new work.new.cont.now (memory_of y.old f0 rtol atol mass work.old) }
    ensures sized_2 { Sized words.new doubles.new }
    ensures cont_after { judged (step_at result (run_at words.new doubles.new)) y.new work.new.cont.now
        ≡ (refined_of (run_at words.old doubles.old)
        work.old.e1.now work.old.ip1.now work.old.scal.now y.old work.old.cont.now (newton_in work.old)).core }
{
    let n = words[N];
    let e1 = &mut *work.e1;
    let ip1 = &mut *work.ip1;
    let scal = &mut *work.scal;
    let cont = &mut *work.cont;
    let z1 = &mut *work.z1;
    let z2 = &mut *work.z2;
    let z3 = &mut *work.z3;
    let f1 = &mut *work.f1;
    let f2 = &mut *work.f2;
    sum(n, f1, f2, cont);
    solve_first(n, e1, ip1, cont);
    let err = error(n, scal, cont);
    judge(words, doubles, err, z1, z2, z3, y, cont)
}
