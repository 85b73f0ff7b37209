#![tactic(auto)]

// The first layout of a table, a cell for each procedure, number and service: definitions and laws, for the theorem that the run of instances equals it. Nothing runs here.
