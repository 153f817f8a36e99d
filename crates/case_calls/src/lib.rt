// The calls on one case: each takes the rest of its line, is made with what that asks for, and puts what came back on the page.
#![tactic(auto)]

pub mod check;
pub mod read;
pub mod write;
