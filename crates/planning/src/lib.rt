// The nodes of a table, one after the other: the plan that the walks use. What a kind is stands below, in `grammar`.
#![tactic(auto)]

pub mod plan;
