// The routines under test: which one a letter means, and what it gives.
use crate::line::Vector;

// In the order of the summary's rows.
#[derive(Clone, Copy)]
pub enum Routine {
    Sqrt,
    Root,
    InverseRoot,
    Power,
    TwoThirds,
    FourFifths,
    Quarter,
    Abs,
    Max,
    Min,
    Clamp,
    Signum,
    Coefficient,
}

// None where the letter means none.
pub fn meant(letter: u8) -> Option<Routine> {
    match letter {
        b's' => Some(Routine::Sqrt),
        b'r' => Some(Routine::Root),
        b'i' => Some(Routine::InverseRoot),
        b'p' => Some(Routine::Power),
        b't' => Some(Routine::TwoThirds),
        b'f' => Some(Routine::FourFifths),
        b'q' => Some(Routine::Quarter),
        b'a' => Some(Routine::Abs),
        b'x' => Some(Routine::Max),
        b'n' => Some(Routine::Min),
        b'c' => Some(Routine::Clamp),
        b'g' => Some(Routine::Signum),
        b'k' => Some(Routine::Coefficient),
        _ => None,
    }
}

// What the vector's routine gives at its operands.
pub fn result(vector: Vector) -> f64 {
    let digits = vector.digits;
    let a = vector.a;
    let b = vector.b;
    match vector.routine {
        Routine::Sqrt => scalar::sqrt(a),
        Routine::Root => scalar::root(digits, a),
        Routine::InverseRoot => scalar::inverse_root(digits, a),
        Routine::Power => scalar::power((digits % 256) as u8, a),
        Routine::TwoThirds => scalar::two_thirds(a),
        Routine::FourFifths => scalar::four_fifths(a),
        Routine::Quarter => scalar::quarter(a),
        Routine::Abs => scalar::abs(a),
        Routine::Max => scalar::max(a, b),
        Routine::Min => scalar::min(a, b),
        Routine::Clamp => scalar::clamp(a, b, vector.c),
        Routine::Signum => scalar::signum(a),
        // A NaN where there is no such coefficient.
        Routine::Coefficient => scalar::coefficient(digits as usize).unwrap_or(f64::NAN),
    }
}
