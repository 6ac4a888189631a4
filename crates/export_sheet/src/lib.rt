// Sheets for programs in C and others that can call C: read into plain arrays, and written out of them.
// include/elchepur.h declares both functions.
#![tactic(auto)]

mod heading;
pub mod sheets;
