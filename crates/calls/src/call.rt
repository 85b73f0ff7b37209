// A call as it comes to the access: lent octets at fixed offsets (docs/RECORDS.md).
ghost use Rattle.std.specs.Prelude.{◌≡◌, length};
ghost use Rattle.calls.specs.Call.{call_size, call_from, names_good, values_good, original_good, call_good};

use crate::event::Event;
use codes::{all_digits, service_code};
use numbers::MOST;
use profile::Profile;

// Where the event and the digits of the original number stand, and the size of the record.
const EVENTAT: usize = 2;

pub(crate) const ORIGINALAT: usize = 8;

const CALLSIZE: usize = 28;

// The highest octet that is an event: no reply.
const EVENTMOST: u8 = 2;

// Option, presentation and preference stay the numbers that C's record of the call that goes on has.
#[derive(Clone, Copy)]
pub struct Call {
    pub number: u8,
    pub service: u8,
    pub event: Event,
    pub counter: u8,
    pub option: u8,
    pub presentation: u8,
    pub preference: u8,
    pub count: u8,
}

#[tactic(auto, unfolding(crate::specs::Call::call_from))]
pub(crate) fn call_of(s: &[u8]) -> Call
    requires { length s.now ≡ call_size }
    ensures { result ≡ call_from s.now }
{
    Call {
        number: s[0],
        service: s[1],
        event: Event::from(s[EVENTAT]),
        counter: s[3],
        option: s[4],
        presentation: s[5],
        preference: s[6],
        count: s[7],
    }
}

#[tactic(auto, unfolding(crate::specs::Call::names_good))]
fn names_good(p: Profile, c: Call) -> bool
    ensures { result ≡ names_good p c }
{
    c.number < p.numbercount && c.service != 0 && service_code(c.service)
}

#[tactic(auto, unfolding(crate::specs::Call::values_good))]
fn values_good(c: Call) -> bool
    ensures { result ≡ values_good c }
{
    c.counter <= 5 && c.option <= 2 && c.presentation <= 1 && c.preference <= 2
}

#[tactic(auto, using(laws::proofs::Parts::part_slice), unfolding(crate::specs::Call::original_good))]
fn original_good(s: &[u8], count: u8) -> bool
    requires { length s.now ≡ call_size }
    ensures { result ≡ original_good s.now count }
{
    count as usize <= MOST && all_digits(&s[ORIGINALAT..ORIGINALAT + count as usize])
}

// Whether a call's record breaks no rule.
#[tactic(auto, unfolding(crate::specs::Call::call_good))]
pub(crate) fn call_good(p: Profile, s: &[u8]) -> bool
    ensures { result ≡ call_good p s.now }
{
    if s.len() != CALLSIZE || EVENTMOST < s[EVENTAT] {
        return false;
    }
    let c = call_of(s);
    names_good(p, c) && values_good(c) && original_good(s, c.count)
}
