#![tactic(auto)]

// Definitions and laws that every crate cites; nothing here runs. See specs/ and proofs/.
