#![tactic(auto)]

// Laws of the model stand in proofs/; this crate has no code.
