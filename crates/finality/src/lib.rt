// Theorems about the definitions of the crate calculus: see proofs/. No code runs.
#![tactic(auto)]
