// Dense output: the amounts at a point within a step, from the coefficients that the step left, and the step's two
// ends. Each offered function equals a definition of specs/ for every input, so none asks anything of its caller.
#![tactic(auto)]

pub mod answers;
pub mod interpolation;
pub mod step;

pub use answers::{Bounds, InterpolationError};
pub use interpolation::interpolate;
pub use step::bounds;
