// The ends of a step, as dense.rs has them.
ghost use Rattle.std.specs.Prelude.{◌≡◌};
ghost use Rattle.dense.specs.Bounds.{bounds_of};

use crate::answers::Bounds;

// The left and the right end of the step from xold by h. A step whose h is at least 0, a -0 too, starts at its left
// end; any other, also one whose h is NaN, starts at its right end.
#[tactic(auto, unfolding(crate::specs::Bounds::bounds_of, words::specs::Loop::pick))]
pub fn bounds(xold: f64, h: f64) -> Bounds
    ensures { result ≡ bounds_of xold h }
{
    if h >= 0.0 {
        Bounds {
            left: xold,
            right: xold + h,
        }
    } else {
        Bounds {
            left: xold + h,
            right: xold,
        }
    }
}
