#![tactic(auto)]

// What a list of requests leaves, and that the undivided run has the same, stand in specs/ and proofs/; this crate has no code.
