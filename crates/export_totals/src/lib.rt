// The totals of a night for programs in C and others that can call C: status lines in, in pieces of any size, and
// numbers or the bytes that the program `totals` prints out; and two totals joined. include/elchepur.h declares the
// functions.
#![tactic(auto)]

pub mod depots;
pub mod nights;
mod record;
