// What a night sheet is, by its form alone (document 01, "Night sheet").
#![tactic(auto)]

mod field;
mod form;
mod read;
mod sheet;

pub use form::{Form, form_one};
pub use sheet::{FormRead, read_form};
