// A run is opened, or refused exactly as document 01 says; and the refusals that stand before an advance,
// which test the same rows again. Each offered function equals a definition of specs/ for every input, so
// none asks anything of its caller.
#![tactic(auto)]

mod absent;
pub mod admission;
mod checks;
mod clear;
mod first;
mod groups;
pub mod opening;
mod parts;
mod tolerances;

pub use opening::open;
