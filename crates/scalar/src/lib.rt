// The scalar routines: everything under 'Arithmetic, operation by operation' of document 01, and the coefficients of
// radau.rs. Each offered function equals a definition of specs/ for every input, so none asks anything of its caller.
#![tactic(auto)]

pub mod coefficients;
mod digits;
mod guesses;
pub mod order;
mod patterns;
pub mod powers;
pub mod roots;
pub mod square_root;

pub use coefficients::coefficient;
pub use order::{abs, clamp, max, min, signum};
pub use powers::{four_fifths, inverse_root, power, quarter, two_thirds};
pub use roots::root;
pub use square_root::sqrt;
