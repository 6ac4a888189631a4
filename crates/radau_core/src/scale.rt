// The error scale (radau.rs:363-366, 714-717), and its division for the variables of index 2 and 3 (radau.rs:436-446).
ghost use Rattle.std.specs.Prelude.{◌≡◌, ◌+◌, ◌≤◌, length};
ghost use Rattle.words.specs.Loop.{loop};
ghost use Rattle.solve_blocks.specs.Scale.{scaled_of, divide_at, weighted_of};

use crate::entries::{atol_at, rtol_at};
use scalar::{abs, power};
use state::run::{Shape, Tolerances};

pub fn scaled(
    n: usize,
    tolerances: Tolerances,
    rtol: &[f64],
    atol: &[f64],
    y: &[f64],
    scal: &mut [f64],
)
    requires { (length rtol.now ≡ n) × (length atol.now ≡ n) × (length y.now ≡ n) × (length scal.old ≡ n) }
    ensures { scal.new
        ≡ scaled_of n tolerances rtol.now atol.now y.now scal.old }
{
    for i in 0..n {
        scal[i] = atol_at(tolerances, atol, i) + rtol_at(tolerances, rtol, i) * abs(y[i]);
    }
}

// Divides the entries from one place up to another.
fn divide(from: usize, to: usize, by: f64, scal: &mut [f64])
    requires { (from ≤ to) × (to ≤ length scal.old) }
    ensures { scal.new ≡ loop (divide_at by) from to scal.old }
{
    for i in from..to {
        scal[i] = scal[i] / by;
    }
}

pub fn weighted(shape: Shape, hhfac: f64, scal: &mut [f64])
    requires { (shape.nind1 + shape.nind2 + shape.nind3 ≤ length scal.old) × (length scal.old ≤ 32) }
    ensures { scal.new ≡ weighted_of shape hhfac scal.old }
{
    let two = shape.nind1 + shape.nind2;
    let three = two + shape.nind3;
    divide(shape.nind1, two, hhfac, scal);
    divide(two, three, power(2, hhfac), scal);
}
