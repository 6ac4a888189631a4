// `lu_decomp` of lu.rs.
ghost use Rattle.std.specs.Prelude.{◌≡◌};
ghost use Rattle.matrix.specs.Answers.{decomposition};
ghost use Rattle.matrix.specs.Lu.{lu_decomp_of};

use crate::answers::DecompositionError;
use crate::elimination::decompose;
use crate::order::is_order;

// Factors the n by n matrix a in place, with partial pivoting: the multipliers, negated, below the diagonal, and in
// ip[k] the row exchanged with row k. A refusal of the order or a length writes nothing.
pub fn lu_decomp(n: usize, a: &mut [f64], ip: &mut [usize]) -> Result<(), DecompositionError>
    ensures { decomposition result a.new ip.new
        ≡ lu_decomp_of n a.old ip.old }
{
    if !is_order(n) {
        return Err(DecompositionError::Order);
    }
    let fits = (a.len() == n * n) & (ip.len() == n);
    if !fits {
        return Err(DecompositionError::Length);
    }
    decompose::<f64>(n, a, &mut [], ip)
}
