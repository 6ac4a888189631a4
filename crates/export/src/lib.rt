// The port for programs in C and others that can call C: every routine and the run itself, on plain numbers, slices and
// arrays, a run's state as the two arrays of `radau_core`. include/elchepur.h declares them. Each function equals
// definitions of specs/ for every input, so it asks nothing of its caller but that slices don't overlap.
#![tactic(auto)]

mod choices;
pub mod defaults;
pub mod dense_output;
pub mod held;
pub mod matrices;
pub mod run;
pub mod scalars;
mod settings;
mod talk;
