// The public calls on rows of cases, and the reader. No call relies on an earlier check: each checks
// its table first.
#![tactic(auto)]

mod answer;
mod reader;
mod reading;
mod writing;

pub use answer::{Row, RowRefused};
pub use reader::{Next, Reader, Stride, read_at};
pub use reading::read_row;
pub use writing::write_row;
