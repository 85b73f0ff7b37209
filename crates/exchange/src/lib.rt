// The exchange: a table, and what it does with each arriving component (document 01, "Replies", "Local refusals").
#![tactic(auto)]

mod arrive;
mod question;
mod table;

pub use arrive::{Answered, Arrived};
pub use table::{Table, fresh_table};
