// What the programs that take their input in pieces share: it is read to its end, and what it comes to is printed.
#![tactic(auto)]

pub mod answering;
pub mod reading;
pub mod telling;

pub use answering::{Taker, answer};
pub use reading::read_piece;
pub use telling::{unreadable, write_first};
