// Words that a listing and an explanation share, written into lent output (document 01, "Samples").
#![tactic(auto)]

mod hex;
mod pen;
mod word;

pub use hex::{hex_of, write_hex, write_sub};
pub use pen::write_text;
pub use word::{write_decimal, write_kind, write_procedure};
