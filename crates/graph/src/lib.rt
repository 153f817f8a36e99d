// Paths in any graph of at most 256 nodes: definitions in specs/, theorems in proofs/, no code.
#![tactic(auto)]
