// What more than one call stands on: what its line asks for, the buffer that is lent to it, and the texts that calls print.
#![tactic(auto)]

pub mod answers;
pub mod buffer;
pub mod calls;
pub mod fields;
