#![tactic(auto)]

// The proof that a served call leaves a sound block, whatever message it was given, stands in proofs/; this crate has no code.
