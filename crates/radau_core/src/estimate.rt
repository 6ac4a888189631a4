// Loops of the error estimate (radau.rs:622-668).
ghost use Rattle.std.specs.Prelude.{◌≡◌, ◌*◌, ◌≤◌, ◌<◌, length};
ghost use Rattle.words.specs.Words.{double};
ghost use Rattle.words.specs.Loop.{loop};
ghost use Rattle.words.specs.Grid.{Square};
ghost use Rattle.solve_blocks.specs.Entries.{three};
ghost use Rattle.solve_blocks.specs.Estimate.{defect_at, defect_of, row_sum, sides, sides_of};
ghost use Rattle.solve_blocks.specs.Estimate.{solved_first, error_at, error_of, plus_at, sum_at};
ghost use Rattle.solve_blocks.specs.Reordered.{identity_side_at};

use crate::entries::{all_finite, as_float, combined, mass_at};
use matrix::lin_solve;
use scalar::coefficients::{DD1, DD2, DD3};
use scalar::{max, sqrt};
use state::settings::Mass;

fn defect_by(
    n: usize,
    hee1: f64,
    hee2: f64,
    hee3: f64,
    z1: &[f64],
    z2: &[f64],
    z3: &[f64],
    f1: &mut [f64],
)
    requires { (length z1.now ≡ n) × (length z2.now ≡ n) × (length z3.now ≡ n) × (length f1.old ≡ n) }
    ensures { f1.new
        ≡ loop (defect_at hee1 hee2 hee3 (three z1.now z2.now z3.now)) 0
        n f1.old }
{
    for i in 0..n {
        f1[i] = combined(hee1, z1[i], hee2, z2[i], hee3, z3[i]);
    }
}

pub fn defect(n: usize, h: f64, z1: &[f64], z2: &[f64], z3: &[f64], f1: &mut [f64])
    requires { (length z1.now ≡ n) × (length z2.now ≡ n) × (length z3.now ≡ n) × (length f1.old ≡ n) }
    ensures { f1.new
        ≡ defect_of n h (three z1.now z2.now z3.now) f1.old }
{
    defect_by(n, DD1 / h, DD2 / h, DD3 / h, z1, z2, z3, f1);
}

// Row i of the mass matrix times f1.
fn row_sum(mode: Mass, n: usize, mass: &[f64], f1: &[f64], i: usize) -> f64
    requires { (i < n) × Square n mass.now × (length f1.now ≡ n) }
    ensures { result ≡ row_sum mode n mass.now f1.now i }
{
    let mut sum = 0.0;
    for j in 0..n {
        sum = sum + mass_at(mode, mass, n, i, j) * f1[j];
    }
    sum
}

// Every row's sum term by term.
fn literal_sides(
    mode: Mass,
    n: usize,
    mass: &[f64],
    f0: &[f64],
    f1: &[f64],
    f2: &mut [f64],
    cont: &mut [f64],
)
    requires { Square n mass.now
        × (length f0.now ≡ n)
        × (length f1.now ≡ n)
        × (length f2.old ≡ n)
        × (n ≤ length cont.old) }
    ensures { sides f2.new cont.new
        ≡ sides_of mode n mass.now f0.now f1.now
        (sides f2.old cont.old) }
{
    for i in 0..n {
        let sum = row_sum(mode, n, mass, f1, i);
        f2[i] = sum;
        cont[i] = sum + f0[i];
    }
}

// Each row's sum by its term on the diagonal: the others are zeros, where f1 is finite.
fn identity_sides(n: usize, f0: &[f64], f1: &[f64], f2: &mut [f64], cont: &mut [f64])
    requires { (length f0.now ≡ n) × (length f1.now ≡ n) × (length f2.old ≡ n) × (n ≤ length cont.old) }
    ensures { sides f2.new cont.new
        ≡ loop (identity_side_at f0.now f1.now) 0 n
        (sides f2.old cont.old) }
{
    for i in 0..n {
        let sum = 0.0 + 1.0 * f1[i];
        f2[i] = sum;
        cont[i] = sum + f0[i];
    }
}

// f2 and the right side of the error's system.
pub fn error_sides(
    mode: Mass,
    n: usize,
    mass: &[f64],
    f0: &[f64],
    f1: &[f64],
    f2: &mut [f64],
    cont: &mut [f64],
)
    requires { Square n mass.now
        × (length f0.now ≡ n)
        × (length f1.now ≡ n)
        × (length f2.old ≡ n)
        × (n ≤ length cont.old) }
    ensures { sides f2.new cont.new
        ≡ sides_of mode n mass.now f0.now f1.now
        (sides f2.old cont.old) }
{
    match mode {
        Mass::Identity => {
            if all_finite(n, f1) {
                identity_sides(n, f0, f1, f2, cont);
                return;
            }
        }
        Mass::Full => {}
    }
    literal_sides(mode, n, mass, f0, f1, f2, cont);
}

// The first n entries of cont are solved for.
pub fn solve_first(n: usize, e1: &[f64], ip1: &[usize], cont: &mut [f64])
    requires { n ≤ length cont.old }
    ensures { cont.new ≡ solved_first n e1.now ip1.now cont.old }
{
    let _ = lin_solve(n, e1, &mut cont[..n], ip1);
}

fn error_sum(n: usize, scal: &[f64], cont: &[f64]) -> f64
    requires { (length scal.now ≡ n) × (n ≤ length cont.now) }
    ensures { result ≡ loop (error_at scal.now cont.now) 0 n (double 0) }
{
    let mut sum = 0.0;
    for i in 0..n {
        let r = cont[i] / scal[i];
        sum = sum + r * r;
    }
    sum
}

// The norm of the error; a NaN becomes 1e-10.
pub fn error(n: usize, scal: &[f64], cont: &[f64]) -> f64
    requires { (n ≤ 32) × (length scal.now ≡ n) × (n ≤ length cont.now) }
    ensures { result ≡ error_of n scal.now cont.now }
{
    let sum = error_sum(n, scal, cont);
    max(sqrt(sum / as_float(n)), 1e-10)
}

// cont[i] += y[i]
pub fn plus(n: usize, y: &[f64], cont: &mut [f64])
    requires { (length y.now ≡ n) × (n ≤ length cont.old) }
    ensures { cont.new ≡ loop (plus_at y.now) 0 n cont.old }
{
    for i in 0..n {
        cont[i] = cont[i] + y[i];
    }
}

// cont[i] = f1[i] + f2[i]
pub fn sum(n: usize, f1: &[f64], f2: &[f64], cont: &mut [f64])
    requires { (length f1.now ≡ n) × (length f2.now ≡ n) × (n ≤ length cont.old) }
    ensures { cont.new ≡ loop (sum_at f1.now f2.now) 0 n cont.old }
{
    for i in 0..n {
        cont[i] = f1[i] + f2[i];
    }
}
