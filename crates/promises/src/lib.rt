// What the calls promise, in one place: proofs alone, no code.
#![tactic(auto)]
