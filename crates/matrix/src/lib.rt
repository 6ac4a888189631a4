// LU decomposition and solution of real and complex systems of order 1 to 32: the four routines of lu.rs and linear.rs.
// A matrix is a flat row-major slice with n. Each offered function equals a definition of specs/ for every input, so
// none asks anything of its caller.
#![tactic(auto)]

pub mod answers;
mod complex;
mod complex_entry;
mod elimination;
mod entry;
mod grid;
pub mod linear;
pub mod linear_complex;
pub mod lu;
pub mod lu_complex;
mod order;
mod real_entry;
mod substitution;

pub use answers::{DecompositionError, SolveError};
pub use linear::lin_solve;
pub use linear_complex::lin_solve_complex;
pub use lu::lu_decomp;
pub use lu_complex::lu_decomp_complex;
