// The four matrix routines under names that C can link. Each answers document 01's number, 0 where it did its work, and
// leaves its slices as `matrix`'s own does.
ghost use Rattle.std.specs.Prelude.{◌≡◌};
ghost use Rattle.matrix.specs.Answers.{decomposed_number, solved_number};
ghost use Rattle.matrix.specs.Complex.{parts};
ghost use Rattle.matrix.specs.Linear.{lin_solve_of};
ghost use Rattle.matrix.specs.LinearComplex.{lin_solve_complex_of};
ghost use Rattle.matrix.specs.Lu.{lu_decomp_of};
ghost use Rattle.matrix.specs.LuComplex.{lu_decomp_complex_of};
ghost use Rattle.export.specs.Matrices.{column_left};

use matrix::{DecompositionError, SolveError};

// With 17, and then alone, the column is written.
fn decomposed(answer: Result<(), DecompositionError>, column: &mut usize) -> u64
    ensures { (result ≡ decomposed_number answer)
        × (column.new ≡ column_left answer column.old) }
{
    match answer {
        Ok(()) => 0,
        Err(DecompositionError::Order) => 1,
        Err(DecompositionError::Length) => 16,
        Err(DecompositionError::Singular(k)) => {
            *column = k;
            17
        }
    }
}

fn solved(answer: Result<(), SolveError>) -> u64
    ensures { result ≡ solved_number answer }
{
    match answer {
        Ok(()) => 0,
        Err(SolveError::Order) => 1,
        Err(SolveError::Length) => 16,
        Err(SolveError::Pivot) => 18,
    }
}

#[unsafe(no_mangle)]
pub extern "C" fn elchepur_lu_decomp(
    n: usize,
    a: &mut [f64],
    ip: &mut [usize],
    column: &mut usize,
) -> u64
    ensures { (result ≡ decomposed_number (lu_decomp_of n a.old ip.old).answer)
        × (a.new ≡ (lu_decomp_of n a.old ip.old).a)
        × (ip.new ≡ (lu_decomp_of n a.old ip.old).ip)
        × (column.new
        ≡ column_left (lu_decomp_of n a.old ip.old).answer column.old) }
{
    decomposed(matrix::lu_decomp(n, a, ip), column)
}

#[unsafe(no_mangle)]
pub extern "C" fn elchepur_lu_decomp_complex(
    n: usize,
    ar: &mut [f64],
    ai: &mut [f64],
    ip: &mut [usize],
    column: &mut usize,
) -> u64
    ensures { (result
        ≡ decomposed_number (lu_decomp_complex_of n (parts ar.old ai.old) ip.old).answer)
        × (parts ar.new ai.new
        ≡ (lu_decomp_complex_of n (parts ar.old ai.old) ip.old).a)
        × (ip.new ≡ (lu_decomp_complex_of n (parts ar.old ai.old) ip.old).ip)
        × (column.new
        ≡ column_left (lu_decomp_complex_of n (parts ar.old ai.old) ip.old).answer
        column.old) }
{
    decomposed(matrix::lu_decomp_complex(n, ar, ai, ip), column)
}

#[unsafe(no_mangle)]
pub extern "C" fn elchepur_lin_solve(n: usize, a: &[f64], b: &mut [f64], ip: &[usize]) -> u64
    ensures { (result ≡ solved_number (lin_solve_of n a.now b.old ip.now).answer)
        × (b.new ≡ (lin_solve_of n a.now b.old ip.now).b) }
{
    solved(matrix::lin_solve(n, a, b, ip))
}

#[unsafe(no_mangle)]
pub extern "C" fn elchepur_lin_solve_complex(
    n: usize,
    ar: &[f64],
    ai: &[f64],
    br: &mut [f64],
    bi: &mut [f64],
    ip: &[usize],
) -> u64
    ensures { (result
        ≡ solved_number (lin_solve_complex_of n (parts ar.now ai.now)
        (parts br.old bi.old) ip.now).answer)
        × (parts br.new bi.new
        ≡ (lin_solve_complex_of n (parts ar.now ai.now)
        (parts br.old bi.old) ip.now).b) }
{
    solved(matrix::lin_solve_complex(n, ar, ai, br, bi, ip))
}
