// Bit patterns of doubles that are not negative.
ghost use Rattle.std.specs.Prelude.{◌≡◌, ◌<◌, ◌≤◌};
ghost use Rattle.words.specs.Words.{double};
ghost use Rattle.words.specs.Patterns.{infinity_pattern};

// The pattern of infinity: those below it are the finite numbers from +0 on, in their order.
pub const INFINITY: u64 = 0x7ff0_0000_0000_0000;

// The number with the pattern b.
pub fn number(b: u64) -> f64
    requires { b ≤ infinity_pattern }
    ensures { result ≡ double b }
{
    f64::from_bits(b)
}

// The pattern of a guess, if that is a number from +0 on; else 0.
pub fn pattern(y: f64) -> u64
    ensures { result < infinity_pattern }
{
    if y.is_nan() {
        return 0;
    }
    let g = y.to_bits();
    if g < INFINITY { g } else { 0 }
}
