// A model in memory, written as a sheet into lent memory: the bytes that reading takes back as the same model. What is
// no model of document 01 is refused by 23, and a sheet that is longer than the memory by 24.
#![tactic(auto)]

mod listing;
mod numbers;
pub mod rewriting;
pub mod writing;

pub use rewriting::rewrite;
pub use writing::write;
