// The rules of registration, for the exchange and for the end's picture alike (document 01, "Replies, in the order checked").
#![tactic(auto)]

mod error;
mod judge;
mod prefix;
mod selection;
mod tests;

pub use error::RequestError;
pub use judge::{apply_request, judge_request, renew_request};
pub use selection::selection_of;
