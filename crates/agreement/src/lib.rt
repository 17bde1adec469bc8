#![tactic(auto)]

// The proof that the divided and the undivided run agree stands in proofs/; this crate has no code.
