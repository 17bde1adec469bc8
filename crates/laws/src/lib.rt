#![tactic(auto)]

// Laws of lists, tables and orbits stand in proofs/; this crate has no code.
