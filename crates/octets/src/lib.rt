// Octets in the basic encoding rules: elements and numbers of several octets, read and written. Nothing here knows a component.
// What is offered is total: a reader refuses what it cannot read, a writer that finds no room writes nothing.
#![tactic(auto)]

mod found;
mod head;
mod word;
mod write;

pub use found::Found;
pub use head::{Head, head_at};
pub use word::word_in;
pub use write::{has_room, head_size, put_all, put_head, put_word};
