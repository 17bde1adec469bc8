#![tactic(auto)]

// The proof that each move carried out lowers the sum of the squared counts, and that a run of moves ends, stands in proofs/; this crate has no code.
