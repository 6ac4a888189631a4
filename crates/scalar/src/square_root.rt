// The square root of a double, proved from IEEE 754. The number is brought to a whole number with an even place, whose
// root is cut to 53 digits and rounded.
ghost use Rattle.std.specs.Prelude.{◌≡◌, ◌<◌, ◌*◌, ◌^◌};
ghost use Rattle.words.specs.Patterns.{units, units_in_one, infinity_pattern};
ghost use Rattle.scalar.specs.SquareRoot.{IsSquareRoot};
ghost use Rattle.scalar.specs.SquareRootComputed.{nearest_root, sqrt_of};
ghost use Rattle.scalar.specs.Steps.{FullWidth, EvenPlace};

use crate::digits::wide_root;
use crate::guesses::digits_guess;

// The nearest double to the exact root, ties to even; -0 for -0; NaN for a negative x or a NaN. The equation is for a
// caller's proof; `IsSquareRoot` is for a reader: what a root is, with no way to compute it.
pub fn sqrt(x: f64) -> f64
    ensures { (result ≡ sqrt_of x) × IsSquareRoot x result }
{
    if x < 0.0 {
        return f64::NAN;
    }
    if x.is_nan() || x == 0.0 || x == f64::INFINITY {
        return x;
    }
    f64::from_bits(root_pattern(x.to_bits()))
}

// The pattern of the root of the number with the pattern b. The digits may be one less than the root's,
// so two are added at most.
fn root_pattern(b: u64) -> u64
    requires { (0 < b) × (b < infinity_pattern) }
    ensures { (result ≡ nearest_root (units b * units_in_one)) × (result < infinity_pattern) }
{
    let s = even_place(b);
    let d = wide_root(s.m, digits_guess(with_field(b, s.m)));
    let r = (s.w - 52) / 2 * 0x10_0000_0000_0000 + d.q;
    if 3 * d.q + 2 < d.rem {
        return r + 2;
    }
    if d.q < d.rem {
        return r + 1;
    }
    r
}

// A number and its place: m * 2^w.
#[derive(Clone, Copy)]
pub struct Scaled {
    pub m: u64,
    pub w: u64,
}

// A subnormal number, of b units, brought to full width by one shift: of its leading zeros 11 stay.
fn full_width(b: u64) -> Scaled
    requires { (0 < b) × (b < 2 ^ 52) }
    ensures { FullWidth b result.m result.w }
{
    let shift = u64::leading_zeros(b) - 11;
    Scaled {
        m: b << shift,
        w: 1074 - shift as u64,
    }
}

// The number with the pattern b, at full width: from its two fields where it has a leading digit.
fn any_width(b: u64) -> Scaled
    requires { (0 < b) × (b < infinity_pattern) }
    ensures { FullWidth (units b) result.m result.w }
{
    if b < 0x10_0000_0000_0000 {
        return full_width(b);
    }
    Scaled {
        m: 0x10_0000_0000_0000 + b % 0x10_0000_0000_0000,
        w: 1073 + b / 0x10_0000_0000_0000,
    }
}

// The same with an even place.
fn even_place(b: u64) -> Scaled
    requires { (0 < b) × (b < infinity_pattern) }
    ensures { EvenPlace (units b) result.m result.w }
{
    let s = any_width(b);
    if s.w % 2 == 0 {
        return s;
    }
    Scaled {
        m: 2 * s.m,
        w: s.w - 1,
    }
}

// A pattern whose root has the digits of that of b, and which has a leading digit: b's own, or that of m,
// b's number at full width.
fn with_field(b: u64, m: u64) -> u64
    requires { (b < infinity_pattern) × (m < 2 ^ 54) }
    ensures { result < infinity_pattern }
{
    if 0x10_0000_0000_0000 <= b {
        return b;
    }
    if m < 0x20_0000_0000_0000 {
        return m + 0x3fe0_0000_0000_0000;
    }
    m / 2 + 0x3ff0_0000_0000_0000
}
