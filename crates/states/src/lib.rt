#![tactic(auto)]

// Statements and their proofs only.
