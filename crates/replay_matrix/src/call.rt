// The calls of the routines, each lent as much of the memory as the case says.
use crate::line::Case;
use crate::memory::{Lent, Memory};
use crate::refusal::Refusal;
use crate::routine::Routine;
use dense::{bounds, interpolate};
use matrix::{lin_solve, lin_solve_complex, lu_decomp, lu_decomp_complex};

// Calls the case's routine. The numbers of the dense output stand where a matrix has its first imaginary parts.
pub fn called(case: Case, routine: Routine, memory: &mut Memory) -> Result<(), Refusal> {
    let x = memory.ai[0];
    let y = memory.ai[1];
    let z = memory.ai[2];
    match routine {
        Routine::LuDecomp => {
            let Lent { ar, ip, .. } = memory.lend(case);
            lu_decomp(case.n, ar, ip)?;
        }
        Routine::LuDecompComplex => {
            let Lent { ar, ai, ip, .. } = memory.lend(case);
            lu_decomp_complex(case.n, ar, ai, ip)?;
        }
        Routine::LinSolve => {
            let Lent { ar, br, ip, .. } = memory.lend(case);
            lin_solve(case.n, ar, br, ip)?;
        }
        Routine::LinSolveComplex => {
            let Lent { ar, ai, br, bi, ip } = memory.lend(case);
            lin_solve_complex(case.n, ar, ai, br, bi, ip)?;
        }
        Routine::Interpolate => {
            let Lent { ar, br, .. } = memory.lend(case);
            interpolate(x, br, ar, y, z)?;
        }
        Routine::Bounds => {
            let ends = bounds(x, y);
            memory.br[0] = ends.left;
            memory.br[1] = ends.right;
        }
    }
    Ok(())
}
