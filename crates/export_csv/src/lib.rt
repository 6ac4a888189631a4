// Points as CSV for programs in C and others that can call C: a header or a record, into a lent buffer.
// include/elchepur.h declares them.
#![tactic(auto)]

pub mod tables;
