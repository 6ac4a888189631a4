// A model of reactions between species: the derivative of their amounts, equal to a definition of specs/.
// `derivative` asks nothing of its caller; `derivative_by_plan` asks for a plan of the model, and is faster.
#![tactic(auto)]

pub mod answers;
pub mod derivation;
pub mod planned;
mod reactions;
mod species;

pub use answers::DerivativeError;
pub use derivation::derivative;
