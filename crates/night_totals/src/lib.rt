// The totals of a night: reads status lines as `decay` prints them, in pieces of any size, and gives the runs per
// status, the sums of the six counts, and the largest ode with the number of its first line (02, [12]).
#![tactic(auto)]

mod adding;
pub mod counts;
pub mod entry;
pub mod filling;
pub mod form;
mod lines;
pub mod night;
pub mod printed;
pub mod totals;
mod written;

pub use night::{fed, start, told};
pub use printed::print;
