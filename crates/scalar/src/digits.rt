// The root of a whole number of 106 digits, cut to a whole number: tested from a guess, or digit by digit.
ghost use Rattle.std.specs.Prelude.{◌≡◌, ◌<◌, ◌≤◌, ◌+◌, ◌*◌, ◌^◌};
ghost use Rattle.scalar.specs.Steps.{Digits, Near, Remains};

// A root so far, and what is left of the number beyond its square.
#[derive(Clone, Copy)]
pub struct Cut {
    pub q: u64,
    pub rem: u64,
}

// The root of m * 2^52, or one less: the guess q, if its square is so near; else digit by digit.
#[tactic(auto, unfolding(crate::specs::Steps::Remains))]
pub fn wide_root(m: u64, q: u64) -> Cut
    requires { (m < 2 ^ 54) × (q < 2 ^ 53) }
    ensures { Near (m * 2 ^ 52) result.q result.rem }
{
    match beyond_square(m, q) {
        Some(rem) => Cut { q, rem },
        None => wide_digits(m),
    }
}

// What m * 2^52 has beyond the square of q, if that is small: taken off by the halves h and l of q, 26 and 27 digits,
// so that each product fits.
#[tactic(auto, unfolding(crate::specs::Steps::Remains))]
fn beyond_square(m: u64, q: u64) -> Option<u64>
    requires { (m < 2 ^ 54) × (q < 2 ^ 53) }
    ensures { Remains m q result }
{
    let h = q / 0x800_0000;
    let l = q % 0x800_0000;
    let d = m.checked_sub(4 * (h * h))?;
    if 0x80_0000_0000 <= d {
        return None;
    }
    let e = (d * 0x100_0000).checked_sub(h * l)?;
    if 0x8_0000_0000 <= e {
        return None;
    }
    let rem = (e * 0x1000_0000).checked_sub(l * l)?;
    if 4 * q + 3 < rem {
        return None;
    }
    Some(rem)
}

// The root of m * 2^52, digit by digit: the digits of m, two at a time, then 26 pairs of zeros.
fn wide_digits(m: u64) -> Cut
    requires { m < 2 ^ 54 }
    ensures { Digits (m * 2 ^ 52) result.q result.rem }
{
    let mut cut = whole_digits(m);
    for _ in 0..26u64 {
        cut = digit(cut, 0);
    }
    cut
}

fn whole_digits(m: u64) -> Cut
    requires { m < 2 ^ 54 }
    ensures { Digits m result.q result.rem }
{
    let mut cut = Cut { q: 0, rem: 0 };
    for left in (0..27u64).rev() {
        cut = digit(cut, (m >> (2 * left)) % 4);
    }
    cut
}

// One binary digit more of a root: d is the number's next two digits.
fn digit(cut: Cut, d: u64) -> Cut
    requires { (cut.rem ≤ 2 * cut.q) × (cut.q < 2 ^ 60) × (d < 4) }
    ensures { Digits (4 * (cut.q * cut.q + cut.rem) + d) result.q result.rem }
{
    let t = 4 * cut.q + 1;
    let n = 4 * cut.rem + d;
    if t <= n {
        return Cut {
            q: 2 * cut.q + 1,
            rem: n - t,
        };
    }
    Cut {
        q: 2 * cut.q,
        rem: n,
    }
}
