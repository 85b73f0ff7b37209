#![tactic(auto)]

// Demand 3 over any rules and any coding: an end, an exchange and the path between them, definitions and laws. Nothing runs here.
