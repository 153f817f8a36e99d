// What the workloads of bench/ are made of: their grammars, and the numbers that they draw.
#![tactic(auto)]

pub mod draw;
pub mod tables;
