// A shelf of recent steps for programs in C and others that can call C, its state in two numbers.
// include/elchepur.h declares the three functions.
#![tactic(auto)]

pub mod shelves;
