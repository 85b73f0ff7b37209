// The listing of a night sheet (document 01, "Samples").
#![tactic(auto)]

mod line;
mod list;

pub use list::{list_sheet, print_sheet};
