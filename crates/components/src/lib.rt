// A component by itself, written into lent output with the refusals of document 01: a request, and the list of an interrogation.
#![tactic(auto)]

mod write;

pub use write::{write_list, write_request};
