// The border to C: exported functions over the crates below. Nothing is decided here; include/sconcetoad.h is its other side.
#![tactic(auto)]

mod arrival;
mod desk;
mod diversion;
mod night;
mod reply;
mod said;
mod written;

pub use arrival::{Arrival, sconcetoad_arrive, sconcetoad_fresh_table};
pub use desk::{
    Moving, Page, PageEntry, Sending, sconcetoad_activate, sconcetoad_arrived,
    sconcetoad_deactivate, sconcetoad_entry, sconcetoad_fresh_end, sconcetoad_give_up,
    sconcetoad_interrogate, sconcetoad_shown,
};
pub use diversion::{Diverted, HandedOn, sconcetoad_divert, sconcetoad_original};
pub use night::{SheetTaken, sconcetoad_list_sheet, sconcetoad_read_sheet, sconcetoad_write_sheet};
pub use reply::{Replied, sconcetoad_reply};
pub use said::{Said, sconcetoad_said};
pub use written::{Octets, sconcetoad_put_list, sconcetoad_put_request};
