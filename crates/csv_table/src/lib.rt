// Points as CSV by RFC 4180 (02, [9]): the header of a table, and the record of a point, each into a lent buffer.
// Numbers stand there in the C standard's hexadecimal form, which has all of a double's bits.
#![tactic(auto)]

pub mod answers;
mod lines;
mod number;
pub mod table;
