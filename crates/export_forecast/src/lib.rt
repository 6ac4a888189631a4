// The forecast of a sheet for programs in C and others that can call C: bytes in, and the bytes that the program
// `decay` prints out. include/elchepur.h declares it.
#![tactic(auto)]

pub mod sheets;
