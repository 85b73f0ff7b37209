// Local refusals, by their numbers (document 01, "Local refusals"). What is refused answers Err: it is not done, and nothing is written.
#![tactic(auto)]

mod refusal;

pub use refusal::{COMPONENTMOST, OUTPUTLEAST, Refusal};
