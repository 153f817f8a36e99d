// The arithmetic of document 01, "From a number to cells", one rule a module, with no table in
// sight. Each function is the definition of the same name in specs/, on machine words.
#![tactic(auto)]

pub mod cons;
pub mod dep;
pub mod divided;
pub mod except;
pub mod joined;
pub mod or;
pub mod power;
pub mod root;
pub mod size;
pub mod tuple;
pub mod union;
