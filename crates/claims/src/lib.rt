// Theorems across calls: definitions in specs/, proofs in proofs/. This crate has no function.
#![tactic(auto)]
