// Tables of document 01: the rows of its ten kinds. The check's definitions stand in specs/, in 01's order; the
// crate `planning` goes through the nodes, and `cycles` finds cycles.
#![tactic(auto)]

pub mod entry;
pub mod kind;
pub mod kinds;
pub mod named;
pub mod pool_words;
pub mod refusal;
pub mod weighed;
