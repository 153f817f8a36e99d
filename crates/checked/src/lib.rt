// What every public call does inside: how it opens, and one number or one case on a table that has
// passed the check.
#![tactic(auto)]

pub mod case;
pub mod copy;
pub mod decided;
pub mod fits;
pub mod item;
pub mod opened;
pub mod prepared;
