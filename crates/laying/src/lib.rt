// The walk that writes, over a plan: it decides by the room (`tally`), writes (`lay`), and knows where every case fits (`sure`).
#![tactic(auto)]

pub mod lay;
pub mod rest;
pub mod sure;
pub mod tally;
