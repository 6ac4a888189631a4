// Dense output under names that C can link: the amounts at a point within a step, and the step's two ends.
ghost use Rattle.std.specs.Prelude.{◌≡◌};
ghost use Rattle.dense.specs.Answers.{interpolated_number};
ghost use Rattle.dense.specs.Bounds.{bounds_of};
ghost use Rattle.dense.specs.Interpolate.{interpolate_of};
ghost use Rattle.export.specs.Ends.{ends_of};

use dense::InterpolationError;

fn interpolated(answer: Result<(), InterpolationError>) -> u64
    ensures { result ≡ interpolated_number answer }
{
    match answer {
        Ok(()) => 0,
        Err(InterpolationError::ShortTarget) => 19,
    }
}

// Answers document 01's number: 0 where yi has the amounts, 19 where it is too short, and then nothing was written.
#[unsafe(no_mangle)]
pub extern "C" fn elchepur_interpolate(
    xi: f64,
    yi: &mut [f64],
    cont: &[f64],
    xold: f64,
    h: f64,
) -> u64
    ensures { (result ≡ interpolated_number (interpolate_of xi yi.old cont.now xold h).answer)
        × (yi.new ≡ (interpolate_of xi yi.old cont.now xold h).yi) }
{
    interpolated(dense::interpolate(xi, yi, cont, xold, h))
}

// Writes the left and the right end of the step from xold by h.
#[unsafe(no_mangle)]
pub extern "C" fn elchepur_bounds(xold: f64, h: f64, ends: &mut [f64; 2])
    ensures { ends.new ≡ ends_of (bounds_of xold h) }
{
    let bounds = dense::bounds(xold, h);
    *ends = [bounds.left, bounds.right];
}
