// A model sheet, read from bytes: lines of numbers, each line ended by LF. What a sheet is stands in specs/Sheet.antt;
// that the reader accepts exactly the sheets, and tells the first wrong line of anything else, is shown in proofs/.
#![tactic(auto)]

mod digits;
mod fill;
pub mod kind;
mod numbers;
pub mod sheet;
pub mod spelling;

pub use sheet::read;
