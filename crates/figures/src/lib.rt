#![tactic(auto)]

// The starred figures are a theorem in specs/Figures.antt; this crate has no code.
