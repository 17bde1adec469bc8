#![tactic(auto)]

// The definitions of the base stand in specs/; this crate has no code.
