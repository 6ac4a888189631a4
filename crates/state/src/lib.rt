// The state of a run: its settings, what it holds between two requests, what it and its host say to each other with
// the documents' numbers for it, the result of a run that has ended, and the test of pivots.
#![tactic(auto)]

pub mod lent;
pub mod numbers;
pub mod parts;
pub mod run;
pub mod settings;
pub mod stray;
pub mod talk;

pub use numbers::{
    blame_column, blame_kind, largest_stride, refusal_number, singular_column, singular_kind,
    smallest_stride, status_number,
};
pub use stray::stray_pivot;
