// The walk that reads, over a plan: from cells to a number.
#![tactic(auto)]

pub mod number;
pub mod own;
pub mod source;
pub mod take;
