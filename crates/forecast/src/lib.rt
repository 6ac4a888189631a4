// The forecast of a sheet: read, run to its end, and told. No case of the answer stands for a run that was broken off
// by its budget: that there is none is a theorem.
#![tactic(auto)]

pub mod bytes;
pub mod task;
mod told;

pub use bytes::forecast;
