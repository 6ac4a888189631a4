// The run with a budget: a model of reactions is its own host, so one call opens a run, answers each of its
// requests, and hands back how it came to its end. The budget is more requests than any run has: that none uses it
// up is a theorem of `forecast`.
#![tactic(auto)]

pub mod host;
mod lent;
mod planned;
pub mod run;
