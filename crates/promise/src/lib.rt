#![tactic(auto)]

// What the whole promises: the samples of document 01, and that each promise admits one answer. Nothing here runs.
