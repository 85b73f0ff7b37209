// What a program shares that runs cases: lines, their numbers and their octets in hexadecimal, and octets that must stay.
#![tactic(auto)]

mod hex;
mod line;
mod outside;
mod signed;
mod words;

pub use hex::{hex_character, octet_of};
pub use line::{find, last_number};
pub use outside::all_outside;
pub use signed::{last_identifier, without_sign};
pub use words::octets_from;
