// An attempt begins (radau.rs:421-502).
ghost use Rattle.std.specs.Prelude.{◌≡◌, ◌*◌, ◌≤◌, List, Float, length};
ghost use Rattle.words.specs.Loop.{loop};
ghost use Rattle.state.specs.Memory.{memory, amounts, newton, given};
ghost use Rattle.state.specs.Lent.{memory_of, newton_in, factors_in, differences_in, SameWork, SameLengths};
ghost use Rattle.solve_blocks.specs.Attempt.{stage_sum_at, staged, ask_stage_of, ask_first_of, guessed};
ghost use Rattle.solve_blocks.specs.Attempt.{guess_at, guess_of, begun_as, started, began_of, attempt_of};
ghost use Rattle.solve_blocks.specs.Needs.{Fit, NewtonLong};
ghost use Rattle.radau_core.specs.Places.{run_at, Sized, call_at, shape_at};

use crate::entries::combined;
use crate::kept::shape_at;
use crate::places::{
    DOUBLES, FACCON, FIRST, H, HHFAC, HOLD, MAX_STEPS, N, NEWT_ITER, ODE, THETA, TOTAL, UROUND,
    WORDS, X, XPH,
};
use crate::scale::weighted;
use crate::stage::{at_stage, ended};
use crate::step::Call;
use scalar::coefficients::{
    C1, C1M1, C2, C2M1, TI00, TI01, TI02, TI10, TI11, TI12, TI20, TI21, TI22,
};
use scalar::{abs, four_fifths, max};
use state::lent::Work;
use state::parts::zero;
use state::run::{Stage, Status};
use state::talk::{Place, Request};

// cont[i] = y[i] + z[i]
fn stage_sum(n: usize, y: &[f64], z: &[f64], cont: &mut [f64])
    requires { (n ≤ length y.now) × (n ≤ length z.now) × (n ≤ length cont.old) }
    ensures { cont.new ≡ loop (stage_sum_at y.now z.now) 0 n cont.old }
{
    for i in 0..n {
        cont[i] = y[i] + z[i];
    }
}

// A stage's derivative is asked at x, of the amounts y + z.
pub fn ask_stage(
    words: &mut [usize; WORDS],
    doubles: &mut [f64; DOUBLES],
    stage: Stage,
    x: f64,
    place: Place,
    y: &[f64],
    z: &[f64],
    cont: &mut [f64],
) -> Call
    requires sized { Sized words.old doubles.old }
    requires fit { Fit 1 (shape_at words.old).n (run_at words.old doubles.old) }
    requires y_len { (length y.now ≡ (shape_at words.old).n)
        × (length z.now ≡ (shape_at words.old).n)
        × (length cont.old ≡ 4 * (shape_at words.old).n) }
    ensures sized_2 { Sized words.new doubles.new }
    ensures cont_after { staged (call_at result (run_at words.new doubles.new)) cont.new
        ≡ ask_stage_of (run_at words.old doubles.old) stage x place
        y.now z.now cont.old }
{
    let n = words[N];
    stage_sum(n, y, z, cont);
    words[ODE] = words[ODE] + 1;
    at_stage(words, doubles, stage);
    Call {
        request: Request::Derivative(x),
        place,
    }
}

pub fn ask_first(
    words: &mut [usize; WORDS],
    doubles: &mut [f64; DOUBLES],
    y: &[f64],
    z1: &[f64],
    cont: &mut [f64],
) -> Call
    requires sized { Sized words.old doubles.old }
    requires fit { Fit 1 (shape_at words.old).n (run_at words.old doubles.old) }
    requires y_len { (length y.now ≡ (shape_at words.old).n)
        × (length z1.now ≡ (shape_at words.old).n)
        × (length cont.old ≡ 4 * (shape_at words.old).n) }
    ensures sized_2 { Sized words.new doubles.new }
    ensures cont_after { staged (call_at result (run_at words.new doubles.new)) cont.new
        ≡ ask_first_of (run_at words.old doubles.old)
        y.now z1.now cont.old }
{
    let x = doubles[X] + C1 * doubles[H];
    ask_stage(
        words,
        doubles,
        Stage::Newton1,
        x,
        Place::ContToZ1,
        y,
        z1,
        cont,
    )
}

// One stage's increment from the last step's coefficients.
fn guessed(c: f64, ak1: f64, ak2: f64, ak3: f64) -> f64
    ensures { result ≡ guessed c ak1 ak2 ak3 }
{
    c * (ak1 + (c - C2M1) * (ak2 + (c - C1M1) * ak3))
}

fn guess_from(
    n: usize,
    c1q: f64,
    c2q: f64,
    c3q: f64,
    cont: &[f64],
    z1: &mut [f64],
    z2: &mut [f64],
    z3: &mut [f64],
    f1: &mut [f64],
    f2: &mut [f64],
    f3: &mut [f64],
)
    requires { (n ≤ 32)
        × (length cont.now ≡ 4 * n)
        × NewtonLong n (newton z1.old z2.old z3.old f1.old f2.old f3.old) }
    ensures { newton z1.new z2.new z3.new
        f1.new f2.new f3.new
        ≡ loop (guess_at n c1q c2q c3q cont.now) 0 n
        (newton z1.old z2.old z3.old
        f1.old f2.old f3.old) }
{
    for i in 0..n {
        let ak1 = cont[n + i];
        let ak2 = cont[2 * n + i];
        let ak3 = cont[3 * n + i];
        let a = guessed(c1q, ak1, ak2, ak3);
        let b = guessed(c2q, ak1, ak2, ak3);
        let c = guessed(c3q, ak1, ak2, ak3);
        z1[i] = a;
        z2[i] = b;
        z3[i] = c;
        f1[i] = combined(a, TI00, b, TI01, c, TI02);
        f2[i] = combined(a, TI10, b, TI11, c, TI12);
        f3[i] = combined(a, TI20, b, TI21, c, TI22);
    }
}

// The first guess of the stages: zeros before the first acceptance, else from the coefficients.
fn guess(
    first: bool,
    n: usize,
    h: f64,
    hold: f64,
    cont: &[f64],
    z1: &mut [f64],
    z2: &mut [f64],
    z3: &mut [f64],
    f1: &mut [f64],
    f2: &mut [f64],
    f3: &mut [f64],
)
    requires { (n ≤ 32)
        × (length cont.now ≡ 4 * n)
        × NewtonLong n (newton z1.old z2.old z3.old f1.old f2.old f3.old) }
    ensures { newton z1.new z2.new z3.new
        f1.new f2.new f3.new
        ≡ guess_of first n h hold cont.now (newton z1.old z2.old z3.old
        f1.old f2.old f3.old) }
{
    if first {
        zero(z1);
        zero(z2);
        zero(z3);
        zero(f1);
        zero(f2);
        zero(f3);
        return;
    }
    let c3q = h / hold;
    guess_from(n, C1 * c3q, C2 * c3q, c3q, cont, z1, z2, z3, f1, f2, f3);
}

// The Newton iteration's numbers at its start.
fn started(words: &mut [usize; WORDS], doubles: &mut [f64; DOUBLES])
    requires { Sized words.old doubles.old }
    ensures sized { Sized words.new doubles.new }
    ensures doubles_after { run_at words.new doubles.new
        ≡ started (run_at words.old doubles.old) }
{
    doubles[XPH] = doubles[X] + doubles[H];
    doubles[FACCON] = four_fifths(max(doubles[FACCON], doubles[UROUND]));
    doubles[THETA] = abs(0.001);
    words[NEWT_ITER] = 0;
}

// Past the guards.
fn began(
    words: &mut [usize; WORDS],
    doubles: &mut [f64; DOUBLES],
    y: &[f64],
    work: &mut Work<'_>,
) -> Call
    requires sized { Sized words.old doubles.old }
    requires fit { Fit 1 (shape_at words.old).n (run_at words.old doubles.old) }
    requires y_len { (length y.now ≡ (shape_at words.old).n)
        × (length work.old.scal.now ≡ (shape_at words.old).n)
        × (length work.old.cont.now ≡ 4 * (shape_at words.old).n)
        × NewtonLong (shape_at words.old).n (newton_in work.old) }
    ensures same { SameWork work.new work.old }
    ensures lengths { SameLengths work.new work.old }
    ensures kept { (f0 rtol atol mass : List Float)
        → memory_of y.now f0 rtol atol mass work.new
        ≡ memory (amounts y.now f0 work.new.scal.now work.new.cont.now)
        (newton_in work.new)
        (given rtol atol mass work.old.jac.now)
        (factors_in work.old)
        (differences_in work.old) }
    ensures sized_2 { Sized words.new doubles.new }
    ensures f3_after { begun_as (call_at result (run_at words.new doubles.new))
        work.new.scal.now work.new.cont.now (newton_in work.new)
        ≡ began_of (run_at words.old doubles.old)
        y.now work.old.scal.now work.old.cont.now (newton_in work.old) }
{
    let n = words[N];
    let first = words[FIRST] != 0;
    let shape = shape_at(words);
    weighted(shape, doubles[HHFAC], work.scal);
    let cont = &mut *work.cont;
    let z1 = &mut *work.z1;
    let z2 = &mut *work.z2;
    let z3 = &mut *work.z3;
    let f1 = &mut *work.f1;
    let f2 = &mut *work.f2;
    let f3 = &mut *work.f3;
    guess(
        first,
        n,
        doubles[H],
        doubles[HOLD],
        cont,
        z1,
        z2,
        z3,
        f1,
        f2,
        f3,
    );
    started(words, doubles);
    ask_first(words, doubles, y, z1, cont)
}

pub fn attempt(
    words: &mut [usize; WORDS],
    doubles: &mut [f64; DOUBLES],
    y: &[f64],
    work: &mut Work<'_>,
) -> Call
    requires sized { Sized words.old doubles.old }
    requires fit { Fit 2 (shape_at words.old).n (run_at words.old doubles.old) }
    requires y_len { (length y.now ≡ (shape_at words.old).n)
        × (length work.old.scal.now ≡ (shape_at words.old).n)
        × (length work.old.cont.now ≡ 4 * (shape_at words.old).n)
        × NewtonLong (shape_at words.old).n (newton_in work.old) }
    ensures same { SameWork work.new work.old }
    ensures lengths { SameLengths work.new work.old }
    ensures kept { (f0 rtol atol mass : List Float)
        → memory_of y.now f0 rtol atol mass work.new
        ≡ memory (amounts y.now f0 work.new.scal.now work.new.cont.now)
        (newton_in work.new)
        (given rtol atol mass work.old.jac.now)
        (factors_in work.old)
        (differences_in work.old) }
    ensures sized_2 { Sized words.new doubles.new }
    ensures f3_after { begun_as (call_at result (run_at words.new doubles.new))
        work.new.scal.now work.new.cont.now (newton_in work.new)
        ≡ (attempt_of (run_at words.old doubles.old)
        y.now work.old.scal.now work.old.cont.now (newton_in work.old)).core }
{
    let most = words[MAX_STEPS];
    let total = words[TOTAL] + 1;
    words[TOTAL] = total;
    if most < total {
        return ended(words, doubles, Status::NeedLargerNMax);
    }
    if 0.1 * abs(doubles[H]) <= abs(doubles[X]) * doubles[UROUND] {
        return ended(words, doubles, Status::StepSizeTooSmall);
    }
    began(words, doubles, y, work)
}
