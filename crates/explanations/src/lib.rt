// A component is told in words (document 01, "Replies, in the order checked").
#![tactic(auto)]

mod component;
mod element;
mod request;
mod row;
mod word;

pub use component::explain;
