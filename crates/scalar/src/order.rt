// Size, order and sign of doubles: the Rust's `abs`, `max`, `min`, `clamp` and `signum`, as document 01 words them.
ghost use Rattle.std.specs.Prelude.{◌≡◌};
ghost use Rattle.scalar.specs.Order.{abs_of, max_of, min_of, clamp_of, signum_of};

// The size of x: its sign cleared. A NaN stays a NaN.
pub fn abs(x: f64) -> f64
    ensures { result ≡ abs_of x }
{
    x.abs()
}

// The greater of the two. A NaN yields the other; of two that compare equal the first is taken.
#[tactic(auto, unfolding(crate::specs::Order::max_of, words::specs::Loop::pick))]
pub fn max(a: f64, b: f64) -> f64
    ensures { result ≡ max_of a b }
{
    if a.is_nan() || a < b { b } else { a }
}

// The lesser of the two, with the same two rules.
#[tactic(auto, unfolding(crate::specs::Order::min_of, words::specs::Loop::pick))]
pub fn min(a: f64, b: f64) -> f64
    ensures { result ≡ min_of a b }
{
    if a.is_nan() || b < a { b } else { a }
}

// The low end if x is below it, else the high end if x is above it, else x. Ends in the wrong order do not
// trap, as the Rust's would.
#[tactic(auto, unfolding(crate::specs::Order::clamp_of, words::specs::Loop::pick))]
pub fn clamp(x: f64, low: f64, high: f64) -> f64
    ensures { result ≡ clamp_of x low high }
{
    if x < low {
        low
    } else if high < x {
        high
    } else {
        x
    }
}

// 1 with the sign of x, a zero's sign too. A NaN stays a NaN.
pub fn signum(x: f64) -> f64
    ensures { result ≡ signum_of x }
{
    x.signum()
}
