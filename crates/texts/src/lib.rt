// Text in and out: decimal numbers, lines of numbers, and the page that texts wait on until it is written out. Bytes are ASCII.
#![tactic(auto)]

pub mod ascii;
pub mod line;
pub mod numeral;
pub mod page;
pub mod said;
pub mod streams;
