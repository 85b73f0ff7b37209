// The event with which a call comes for a number (document 01, "Calls").
ghost use Rattle.std.specs.Prelude.{◌≡◌};
ghost use Rattle.calls.specs.Onward.{EventIn};
ghost use Rattle.calls.specs.Divert.{procedure_of};
ghost use Rattle.calls.specs.inner.Onward.{ReasonOf};

use crate::onward::Reason;

#[derive(Clone, Copy, Debug, PartialEq, Eq)]
pub enum Event {
    Offered,
    Busy,
    NoReply,
}

// Of a record's octet: every one but the first two is no reply, and a record with one above it is refused.
impl From<u8> for Event {
    ghost from_gives = { EventIn };

    fn from(octet: u8) -> Event {
        match octet {
            0 => Event::Offered,
            1 => Event::Busy,
            _ => Event::NoReply,
        }
    }
}

impl Event {
    // The procedure that the event looks at.
    #[tactic(auto, unfolding(crate::specs::Divert::procedure_of))]
    pub(crate) fn procedure(self) -> u8
        ensures { result ≡ procedure_of self }
    {
        match self {
            Event::Offered => 0,
            Event::Busy => 1,
            Event::NoReply => 2,
        }
    }

    // Why a call is diverted that came with the event.
    #[tactic(auto, unfolding(crate::specs::Onward::reason_of))]
    pub(crate) fn reason(self) -> Reason
        ensures { ReasonOf self result }
    {
        match self {
            Event::Offered => Reason::Cfu,
            Event::Busy => Reason::Cfb,
            Event::NoReply => Reason::Cfnr,
        }
    }
}
