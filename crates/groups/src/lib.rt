// Numbers in groups of seven bits, read and written.
#![tactic(auto)]

mod groups;

pub use groups::{groups_at, put_groups};
