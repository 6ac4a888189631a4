// The points of a sheet's run as lines of a table: a sheet is read and its run opened; where `next_report`
// stops at a report, its point is put as a record. That these are the reports of the journal is a theorem.
#![tactic(auto)]

pub mod beginning;
pub mod line;
pub mod step;
mod turn;
