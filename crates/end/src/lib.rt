// The customer end: what it shows of the table, and how it learns it (document 01, "The customer end").
#![tactic(auto)]

mod end;
mod lent;
mod list;
mod picture;
mod send;
mod show;
mod take;

pub use end::{End, fresh_end};
pub use lent::arrived;
pub use send::Sent;
pub use show::{EntryShown, Shown};
pub use take::Moved;
