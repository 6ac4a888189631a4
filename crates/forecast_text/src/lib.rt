// The answer to a sheet: what became of it, and the bytes that `decay` prints of that (01, 'Sheet and program').
#![tactic(auto)]

pub mod ending;
mod lines;
pub mod numerals;
pub mod printed;
pub mod texts;

pub use printed::print;
