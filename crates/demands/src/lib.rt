// Theorems about the outcomes of the functions themselves: see proofs/. No code runs.
#![tactic(auto)]
