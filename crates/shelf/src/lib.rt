// A shelf of recent steps in lent memory beside a run: up to 48 of them, with the coefficients, the old point and the
// held step of each. Asking at a point answers from the newest step that holds it.
#![tactic(auto)]

pub mod answers;
pub mod asking;
mod finding;
mod fit;
mod places;
pub mod placing;

pub use answers::{Shelf, ShelfError};
pub use asking::ask;
pub use placing::{empty, put};
