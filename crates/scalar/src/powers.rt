// The powers that the Rust takes, by roots and repeated products: the exponents 2/3, 0.8, 0.25, -1/m and whole ones.
ghost use Rattle.std.specs.Prelude.{◌≡◌};
ghost use Rattle.scalar.specs.Products.{power_of};
ghost use Rattle.scalar.specs.Powers.{two_thirds_of, four_fifths_of, quarter_of, inverse_root_of};

use crate::roots::root;

// x to the whole power n: at most 255 products, from 1.
pub fn power(n: u8, x: f64) -> f64
    ensures { result ≡ power_of n x }
{
    let mut p = 1.0;
    for _ in 0..n {
        p *= x;
    }
    p
}

// The exponent 2/3: the third root squared.
pub fn two_thirds(v: f64) -> f64
    ensures { result ≡ two_thirds_of v }
{
    power(2, root(3, v))
}

// The exponent 0.8: the fifth root's fourth power.
pub fn four_fifths(v: f64) -> f64
    ensures { result ≡ four_fifths_of v }
{
    power(4, root(5, v))
}

// The exponent 0.25: the fourth root.
pub fn quarter(v: f64) -> f64
    ensures { result ≡ quarter_of v }
{
    root(4, v)
}

// The exponent -1/m: 1 divided by the root of order m.
pub fn inverse_root(m: u64, v: f64) -> f64
    ensures { result ≡ inverse_root_of m v }
{
    1.0 / root(m, v)
}
