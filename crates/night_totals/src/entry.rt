// What a status line says.
use crate::counts::Counts;

// No count of a line is above it.
pub const MOST_COUNT: u64 = 10_000_000_000;

#[derive(Clone, Copy)]
pub struct Entry {
    pub status: u64,
    pub counts: Counts,
}
