// Totals as `totals` prints them, one after another and in pieces of any size, joined from left to right (02, [13]).
#![tactic(auto)]

pub mod chain;
pub mod printed;

pub use chain::{fed, start, told};
pub use printed::print;
