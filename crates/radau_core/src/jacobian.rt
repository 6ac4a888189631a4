// The Jacobian: asked of the host, or made by differences (radau.rs:370-374; ivp.rs:67-107).
ghost use Rattle.std.specs.Prelude.{◌≡◌, ◌+◌, ◌≤◌, ◌<◌, ◌^◌, List, length, Float};
ghost use Rattle.words.specs.Loop.{loop};
ghost use Rattle.words.specs.Grid.{Square};
ghost use Rattle.state.specs.Memory.{differences};
ghost use Rattle.solve_blocks.specs.Jacobian.{asking, asked_here, ask_jacobian_of, perturbation};
ghost use Rattle.solve_blocks.specs.Jacobian.{columned, ask_column_of, column_at, column_of};
ghost use Rattle.radau_core.specs.Places.{run_at, Sized, call_at, step_at, counts_at, shape_at};

use crate::entries::store;
use crate::kept::source_mode;
use crate::places::{DOUBLES, JAC, MADE_HERE, N, SOURCE, WORDS, X};
use crate::stage::at_stage;
use crate::step::{Call, Step};
use scalar::{abs, max};
use state::parts::zero;
use state::run::Stage;
use state::settings::Source;
use state::talk::{Place, Request};

// A Jacobian is counted with its first request, and is one of the present point from there on.
fn wanted(words: &mut [usize; WORDS], doubles: &mut [f64; DOUBLES])
    requires sized { Sized words.old doubles.old }
    requires words_bound { (counts_at words.old).jac + 1 < 2 ^ 64 }
    ensures sized_2 { Sized words.new doubles.new }
    ensures doubles_after { run_at words.new doubles.new
        ≡ asked_here (run_at words.old doubles.old) }
{
    words[JAC] = words[JAC] + 1;
    words[MADE_HERE] = 1;
}

// Copies one part into another of the same length, entry by entry: the library's copy of one lent part into another is
// a call of C's `memmove`, which an archive would need.
fn copy(from: &[f64], to: &mut [f64])
    requires { length to.old ≡ length from.now }
    ensures { to.new ≡ from.now }
{
    for i in 0..from.len() {
        to[i] = from[i];
    }
}

pub fn ask_jacobian(
    words: &mut [usize; WORDS],
    doubles: &mut [f64; DOUBLES],
    y: &[f64],
    y_perturbed: &mut [f64],
    f_perturbed: &mut [f64],
    f_origin: &mut [f64],
) -> Call
    requires sized { Sized words.old doubles.old }
    requires words_bound { ((counts_at words.old).jac + 1 < 2 ^ 64)
        × (length y.now ≡ (shape_at words.old).n)
        × (length y_perturbed.old ≡ (shape_at words.old).n)
        × (length f_perturbed.old ≡ (shape_at words.old).n)
        × (length f_origin.old ≡ (shape_at words.old).n) }
    ensures sized_2 { Sized words.new doubles.new }
    ensures f_origin_after { asking (call_at result (run_at words.new doubles.new))
        (differences y_perturbed.new f_perturbed.new f_origin.new)
        ≡ ask_jacobian_of (run_at words.old doubles.old) y.now
        (differences y_perturbed.old f_perturbed.old f_origin.old) }
{
    let source = source_mode(words[SOURCE]);
    let x = doubles[X];
    wanted(words, doubles);
    match source {
        Source::Host => {
            at_stage(words, doubles, Stage::Jacobian);
            Call {
                request: Request::Jacobian(x),
                place: Place::Nowhere,
            }
        }
        Source::Differences => {
            copy(y, y_perturbed);
            zero(f_perturbed);
            zero(f_origin);
            at_stage(words, doubles, Stage::Column(0));
            Call {
                request: Request::Derivative(x),
                place: Place::YToFOrigin,
            }
        }
    }
}

// 2^-26 times the larger of |y| and 1.
fn perturbation(y: f64) -> f64
    ensures { result ≡ perturbation y }
{
    1.490_116_119_384_765_6e-8 * max(abs(y), 1.0)
}

// An amount is moved, and the derivative there asked.
fn ask_column(
    words: &mut [usize; WORDS],
    doubles: &mut [f64; DOUBLES],
    col: usize,
    y: &[f64],
    y_perturbed: &mut [f64],
) -> Step
    requires sized { Sized words.old doubles.old }
    requires col_bound { (col < 32) × (col < length y.now) × (col < length y_perturbed.old) }
    ensures sized_2 { Sized words.new doubles.new }
    ensures jac_after { (jac : List Float)
        → columned (step_at result (run_at words.new doubles.new)) y_perturbed.new jac
        ≡ ask_column_of (run_at words.old doubles.old) col
        y.now y_perturbed.old jac }
{
    y_perturbed[col] = y[col] + perturbation(y[col]);
    let x = doubles[X];
    at_stage(words, doubles, Stage::Column(col + 1));
    Step::Asked(Call {
        request: Request::Derivative(x),
        place: Place::YPerturbedToFPerturbed,
    })
}

fn fill_column(n: usize, col: usize, p: f64, f_perturbed: &[f64], f_origin: &[f64], jac: &mut [f64])
    requires { (col < n) × (length f_perturbed.now ≡ n) × (length f_origin.now ≡ n) × Square n jac.old }
    ensures { jac.new
        ≡ loop (column_at n col p f_perturbed.now f_origin.now) 0 n jac.old }
{
    for row in 0..n {
        store(jac, n, row, col, (f_perturbed[row] - f_origin[row]) / p);
    }
}

// The derivative at the point (0) or of a column (1 to n) is there: the next is asked, or the Jacobian is made.
pub fn column(
    words: &mut [usize; WORDS],
    doubles: &mut [f64; DOUBLES],
    c: usize,
    y: &[f64],
    y_perturbed: &mut [f64],
    f_perturbed: &[f64],
    f_origin: &[f64],
    jac: &mut [f64],
) -> Step
    requires sized { Sized words.old doubles.old }
    requires bound { (1 ≤ (shape_at words.old).n)
        × (c ≤ (shape_at words.old).n)
        × (length y.now ≡ (shape_at words.old).n)
        × (length y_perturbed.old ≡ (shape_at words.old).n)
        × (length f_perturbed.now ≡ (shape_at words.old).n)
        × (length f_origin.now ≡ (shape_at words.old).n)
        × Square (shape_at words.old).n jac.old }
    ensures sized_2 { Sized words.new doubles.new }
    ensures jac_after { columned (step_at result (run_at words.new doubles.new))
        y_perturbed.new jac.new
        ≡ column_of c (run_at words.old doubles.old)
        y.now y_perturbed.old f_perturbed.now
        f_origin.now jac.old }
{
    let n = words[N];
    if c == 0 {
        return ask_column(words, doubles, 0, y, y_perturbed);
    }
    let col = c - 1;
    y_perturbed[col] = y[col];
    fill_column(n, col, perturbation(y[col]), f_perturbed, f_origin, jac);
    if c < n {
        return ask_column(words, doubles, c, y, y_perturbed);
    }
    Step::Matrices
}
