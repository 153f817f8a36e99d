// The calls on rows of cases: each takes the rest of its line, is made with what that asks for, and puts what came back on the page.
#![tactic(auto)]

pub mod read_row;
pub mod reader;
pub mod write_row;
