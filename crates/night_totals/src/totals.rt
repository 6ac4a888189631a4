// The totals of status lines.
use crate::counts::{Counts, Runs};

#[derive(Clone, Copy)]
pub struct Totals {
    pub lines: u64,
    pub runs: Runs,
    // The sums of the counts.
    pub counts: Counts,
    // The largest ode, and the number of its first line, from 1; of no lines both are 0.
    pub largest: u64,
    pub place: u64,
}
