// The routines under test: which one a letter means, and its row in the summary. The last row is of the refusals.

// The routines, in the order of their rows.
#[derive(Clone, Copy)]
pub enum Routine {
    LuDecomp,
    LuDecompComplex,
    LinSolve,
    LinSolveComplex,
    Interpolate,
    Bounds,
}

// The row of the refusals.
pub const REFUSALS: usize = 6;

impl Routine {
    pub fn of_letter(letter: u8) -> Option<Routine> {
        match letter {
            b'd' => Some(Routine::LuDecomp),
            b'D' => Some(Routine::LuDecompComplex),
            b's' => Some(Routine::LinSolve),
            b'S' => Some(Routine::LinSolveComplex),
            b'i' => Some(Routine::Interpolate),
            b'b' => Some(Routine::Bounds),
            _ => None,
        }
    }

    pub fn row(self) -> usize {
        match self {
            Routine::LuDecomp => 0,
            Routine::LuDecompComplex => 1,
            Routine::LinSolve => 2,
            Routine::LinSolveComplex => 3,
            Routine::Interpolate => 4,
            Routine::Bounds => 5,
        }
    }

    // Whether it writes to the matrix and the pivots, and not to the right side.
    pub fn is_decomposition(self) -> bool {
        matches!(self, Routine::LuDecomp | Routine::LuDecompComplex)
    }
}
