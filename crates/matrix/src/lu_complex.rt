// `lu_decomp_complex` of lu.rs.
ghost use Rattle.std.specs.Prelude.{◌≡◌};
ghost use Rattle.matrix.specs.Answers.{decomposition};
ghost use Rattle.matrix.specs.Complex.{parts};
ghost use Rattle.matrix.specs.LuComplex.{lu_decomp_complex_of};

use crate::answers::DecompositionError;
use crate::complex::Complex;
use crate::elimination::decompose;
use crate::order::is_order;

// As `lu_decomp`, for the complex matrix whose real parts are ar and whose imaginary parts are ai.
pub fn lu_decomp_complex(
    n: usize,
    ar: &mut [f64],
    ai: &mut [f64],
    ip: &mut [usize],
) -> Result<(), DecompositionError>
    ensures { decomposition result (parts ar.new ai.new) ip.new
        ≡ lu_decomp_complex_of n (parts ar.old ai.old) ip.old }
{
    if !is_order(n) {
        return Err(DecompositionError::Order);
    }
    let fits = (ar.len() == n * n) & (ai.len() == n * n) & (ip.len() == n);
    if !fits {
        return Err(DecompositionError::Length);
    }
    decompose::<Complex>(n, ar, ai, ip)
}
