// `lin_solve_complex` of linear.rs.
ghost use Rattle.std.specs.Prelude.{◌≡◌};
ghost use Rattle.matrix.specs.Answers.{solution};
ghost use Rattle.matrix.specs.Complex.{parts};
ghost use Rattle.matrix.specs.LinearComplex.{lin_solve_complex_of};

use crate::answers::SolveError;
use crate::complex::Complex;
use crate::order::is_order;
use crate::substitution::solve;
use state::stray_pivot;

// As `lin_solve`, for a complex right side in the two parts br and bi, with what `lu_decomp_complex` left.
pub fn lin_solve_complex(
    n: usize,
    ar: &[f64],
    ai: &[f64],
    br: &mut [f64],
    bi: &mut [f64],
    ip: &[usize],
) -> Result<(), SolveError>
    ensures { solution result (parts br.new bi.new)
        ≡ lin_solve_complex_of n (parts ar.now ai.now)
        (parts br.old bi.old) ip.now }
{
    if !is_order(n) {
        return Err(SolveError::Order);
    }
    let fits = (ar.len() == n * n)
        & (ai.len() == n * n)
        & (br.len() == n)
        & (bi.len() == n)
        & (ip.len() == n);
    if !fits {
        return Err(SolveError::Length);
    }
    if stray_pivot(n, ip) {
        return Err(SolveError::Pivot);
    }
    solve::<Complex>(n, ar, ai, br, bi, ip);
    Ok(())
}
