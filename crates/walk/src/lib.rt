// The walks over rules, whatever their kinds: what they are, and what follows from the law. Their code stands above, in `laying` and `taking`.
#![tactic(auto)]

pub mod lent;
