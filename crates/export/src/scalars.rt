// The scalar routines under names that C can link: each answers what `scalar`'s own does, for every input.
ghost use Rattle.std.specs.Prelude.{◌≡◌};
ghost use Rattle.scalar.specs.Coefficients.{entry_of};
ghost use Rattle.scalar.specs.Order.{abs_of, max_of, min_of, clamp_of, signum_of};
ghost use Rattle.scalar.specs.Powers.{two_thirds_of, four_fifths_of, quarter_of, inverse_root_of};
ghost use Rattle.scalar.specs.Products.{power_of};
ghost use Rattle.scalar.specs.Root.{root_of};
ghost use Rattle.scalar.specs.SquareRootComputed.{sqrt_of};
ghost use Rattle.scalar.specs.SquareRoot.{IsSquareRoot};
ghost use Rattle.export.specs.Entries.{entry_number, entry_value};

#[unsafe(no_mangle)]
pub extern "C" fn elchepur_sqrt(x: f64) -> f64
    ensures { (result ≡ sqrt_of x) × IsSquareRoot x result }
{
    scalar::sqrt(x)
}

#[unsafe(no_mangle)]
pub extern "C" fn elchepur_root(m: u64, v: f64) -> f64
    ensures { result ≡ root_of m v }
{
    scalar::root(m, v)
}

#[unsafe(no_mangle)]
pub extern "C" fn elchepur_power(n: u8, x: f64) -> f64
    ensures { result ≡ power_of n x }
{
    scalar::power(n, x)
}

#[unsafe(no_mangle)]
pub extern "C" fn elchepur_two_thirds(v: f64) -> f64
    ensures { result ≡ two_thirds_of v }
{
    scalar::two_thirds(v)
}

#[unsafe(no_mangle)]
pub extern "C" fn elchepur_four_fifths(v: f64) -> f64
    ensures { result ≡ four_fifths_of v }
{
    scalar::four_fifths(v)
}

#[unsafe(no_mangle)]
pub extern "C" fn elchepur_quarter(v: f64) -> f64
    ensures { result ≡ quarter_of v }
{
    scalar::quarter(v)
}

#[unsafe(no_mangle)]
pub extern "C" fn elchepur_inverse_root(m: u64, v: f64) -> f64
    ensures { result ≡ inverse_root_of m v }
{
    scalar::inverse_root(m, v)
}

#[unsafe(no_mangle)]
pub extern "C" fn elchepur_abs(x: f64) -> f64
    ensures { result ≡ abs_of x }
{
    scalar::abs(x)
}

#[unsafe(no_mangle)]
pub extern "C" fn elchepur_max(a: f64, b: f64) -> f64
    ensures { result ≡ max_of a b }
{
    scalar::max(a, b)
}

#[unsafe(no_mangle)]
pub extern "C" fn elchepur_min(a: f64, b: f64) -> f64
    ensures { result ≡ min_of a b }
{
    scalar::min(a, b)
}

#[unsafe(no_mangle)]
pub extern "C" fn elchepur_clamp(x: f64, low: f64, high: f64) -> f64
    ensures { result ≡ clamp_of x low high }
{
    scalar::clamp(x, low, high)
}

#[unsafe(no_mangle)]
pub extern "C" fn elchepur_signum(x: f64) -> f64
    ensures { result ≡ signum_of x }
{
    scalar::signum(x)
}

// Writes entry k of the table of coefficients, from 0 on, and answers 0; past the table it writes nothing.
#[unsafe(no_mangle)]
pub extern "C" fn elchepur_coefficient(k: usize, value: &mut f64) -> u64
    ensures { (result ≡ entry_number (entry_of k))
        × (value.new ≡ entry_value (entry_of k) value.old) }
{
    match scalar::coefficient(k) {
        Some(entry) => {
            *value = entry;
            0
        }
        None => 30,
    }
}
