// The solver for runs that come by value: a run is advanced from one request to the next, with the bits of `solve`
// (radau.rs). The work is that of `radau_core`, where a run stands in two arrays. Here a run that is not fit is
// refused, so that each offered function is settled by its contract for every input, and asks nothing of its caller.
#![tactic(auto)]

pub mod advance;

pub use advance::Resumed;
