// `interpolate` of radau.rs.
ghost use Rattle.std.specs.Prelude.{◌≡◌};
ghost use Rattle.dense.specs.Answers.{interpolation};
ghost use Rattle.dense.specs.Interpolate.{interpolate_of};

use crate::answers::InterpolationError;
use scalar::coefficients::{C1M1, C2M1};

// Writes to yi the n amounts at xi, from the coefficients cont of the step from xold by h, n being a quarter of the
// coefficients, rounded down. Entries from n on stay; a yi shorter than n is refused, and nothing is written.
pub fn interpolate(
    xi: f64,
    yi: &mut [f64],
    cont: &[f64],
    xold: f64,
    h: f64,
) -> Result<(), InterpolationError>
    ensures { interpolation result yi.new
        ≡ interpolate_of xi yi.old cont.now xold h }
{
    let n = cont.len() / 4;
    if yi.len() < n {
        return Err(InterpolationError::ShortTarget);
    }
    let s = (xi - (xold + h)) / h;
    for i in 0..n {
        let c0 = cont[i];
        let c1 = cont[n + i];
        let c2 = cont[2 * n + i];
        let c3 = cont[3 * n + i];
        yi[i] = c0 + s * (c1 + (s - C2M1) * (c2 + (s - C1M1) * c3));
    }
    Ok(())
}
