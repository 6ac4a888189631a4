// `lin_solve` of linear.rs.
ghost use Rattle.std.specs.Prelude.{◌≡◌};
ghost use Rattle.matrix.specs.Answers.{solution};
ghost use Rattle.matrix.specs.Linear.{lin_solve_of};

use crate::answers::SolveError;
use crate::order::is_order;
use crate::substitution::solve;
use state::stray_pivot;

// Solves for the right side b, in place, with the factors a and the pivots ip that `lu_decomp` left. Writes what the
// Rust does, bit for bit; an order, a length or a pivot that doesn't fit is refused, and then nothing is written.
pub fn lin_solve(n: usize, a: &[f64], b: &mut [f64], ip: &[usize]) -> Result<(), SolveError>
    ensures { solution result b.new ≡ lin_solve_of n a.now b.old ip.now }
{
    if !is_order(n) {
        return Err(SolveError::Order);
    }
    let fits = (a.len() == n * n) & (b.len() == n) & (ip.len() == n);
    if !fits {
        return Err(SolveError::Length);
    }
    if stray_pivot(n, ip) {
        return Err(SolveError::Pivot);
    }
    solve::<f64>(n, a, &[], b, &mut [], ip);
    Ok(())
}
