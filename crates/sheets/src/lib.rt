// Night sheets against a profile: a table is written as one, and one is read as a table (document 01, "Night sheet").
#![tactic(auto)]

mod read;
mod write;

pub use read::read_sheet;
pub use write::write_sheet;
