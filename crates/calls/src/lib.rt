// Calls that come to the access: diverted, not diverted or refused (document 01, "Calls"; Q.732.2-5, 2.5.2.5.1.2).
#![tactic(auto, using(laws::proofs::Cases::cases))]

mod call;
mod diverting;
mod event;
mod onward;
mod originals;

pub use call::Call;
pub use diverting::{Diversion, Notice, Onward, divert};
pub use event::Event;
pub use onward::Reason;
pub use originals::{Handed, original};
