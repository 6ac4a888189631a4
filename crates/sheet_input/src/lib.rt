// What the programs that take a sheet share: standard input read to its end.
#![tactic(auto)]

pub mod reading;

pub use reading::read_all;
