// The printing program: the lines of an input (`input`), what it asks for (`shape`), and what it prints (`print`).
#![tactic(auto)]

mod input;
mod print;
mod shape;

pub use input::INPUT_ROOM;
pub use print::{answer, print_all};
