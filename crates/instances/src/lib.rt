// What a table or a picture holds: instances, one after the other (document 01, "Profile and table").
#![tactic(auto)]

mod few;
mod instance;
mod judged;
mod listed;
mod places;
mod run;

pub use instance::{
    EVERYNUMBER, EVERYSERVICE, Instance, Key, PROCEDURES, Selection, blank_instance, is_named,
    key_of,
};
pub use places::stored;
pub use run::{After, ROOM, Run, fresh_run};
