#![tactic(auto)]

// Definitions and laws of memory by columns stand in specs/ and proofs/; this crate has no code.
