// The profile of an access: its record, read and judged (document 01, "Profile and table").
#![tactic(auto)]

mod access;
mod profile;

pub use access::{NUMBERSAT, NUMBERSIZE, read_access};
pub use profile::{NUMBERS, PREFIXES, Prefix, Profile, SERVICES, number_place, same, service_slot};
