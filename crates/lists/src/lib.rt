// Facts of lists and of order that several crates share: definitions and proofs alone, no code.
#![tactic(auto)]
