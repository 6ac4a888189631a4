// The solver where a run stands: `solve` (radau.rs) from one call of the host to the next, on two lent arrays that hold
// the run and are changed in place. Its definitions, and the laws that its proofs cite, stand in `solve_blocks`.
#![tactic(auto)]

pub mod advance;
mod attempt;
mod control;
mod entries;
mod estimate;
mod jacobian;
mod judge;
mod kept;
mod matrices;
mod newton;
mod notes;
pub mod optional;
pub mod pack;
mod passes;
pub mod places;
mod report;
mod round;
mod scale;
mod stage;
pub mod step;
