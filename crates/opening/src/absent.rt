// The largest and the smallest step (radau.rs:177-178).
ghost use Rattle.std.specs.Prelude.{◌≡◌};
ghost use Rattle.opening.specs.Rows.{ceiling_of, floor_of};

use scalar::abs;
use state::settings::Settings;

// The step ceiling.
pub fn ceiling(s: Settings, x0: f64, xend: f64) -> f64
    ensures { result ≡ ceiling_of s x0 xend }
{
    s.max_step.unwrap_or(abs(xend - x0))
}

// The smallest step.
pub fn floor(s: Settings) -> f64
    ensures { result ≡ floor_of s }
{
    s.min_step.unwrap_or(0.0)
}
