// The codes of document 01, and the characters and types of its numbers.
#![tactic(auto)]

mod codes;
mod digits;

pub use codes::{
    ACTIVATION, DEACTIVATION, INTERROGATION, PROCEDURES, SERVICECOUNT, service_code, service_place,
    trunkreason,
};
pub use digits::{all_digits, type_good};
