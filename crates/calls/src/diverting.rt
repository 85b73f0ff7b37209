// What becomes of a call: diverted, not diverted or refused (document 01, "Calls"; Q.732.2-5, 2.5.2.5.1.2).
ghost use Rattle.std.specs.Prelude.{◌≡◌, ◌<◌, ◌≤◌, Ok, Some};
ghost use Rattle.profile.specs.Profile.{numbers_most};
ghost use Rattle.instances.specs.Run.{instances_of};
ghost use Rattle.calls.specs.Onward.{options_for};
ghost use Rattle.calls.specs.Divert.{notice_no, NoticeNo, noticed, goes, applying, by_instance};
ghost use Rattle.calls.specs.Coming.{Becomes, DivertsTo};

use crate::call::{Call, call_good, call_of};
use crate::onward::{Reason, option_after, options_for, original_shown, preference_after};
use exchange::Table;
use instances::{Key, Run};
use numbers::{Address, Number, blank_number};
use profile::{Profile, read_access};
use refusals::Refusal;

// What the caller is told: nothing, that the call is diverting, or to which number too.
#[derive(Clone, Copy, Debug, PartialEq, Eq)]
pub enum Notice {
    Silent,
    Diverting,
    DivertingTo,
}

// The number of a notice.
impl From<Notice> for u8 {
    ghost from_gives = { NoticeNo };

    fn from(notice: Notice) -> u8 {
        match notice {
            Notice::Silent => 0,
            Notice::Diverting => 1,
            Notice::DivertingTo => 2,
        }
    }
}

// The call that goes on: the forwarded-to address, the served number with its presentation, the presentation of the original
// number, and the number of the caller's notice.
#[repr(C)]
#[derive(Clone, Copy)]
pub struct Onward {
    pub counter: u8,
    pub called: Address,
    pub redirecting: Number,
    pub redirectingshown: u8,
    pub originalshown: u8,
    pub preference: u8,
    pub option: u8,
    pub noticed: Number,
}

// A diverted call: why, what the caller is told, and the call that goes on.
#[derive(Clone, Copy)]
pub struct Diversion {
    pub reason: Reason,
    pub notice: Notice,
    pub call: Onward,
}

// Not TryFrom: no option here is above 2, and so nothing would meet its Err.
fn notice_of(option: u8) -> Notice
    requires { option ≤ 2 }
    ensures { notice_no result ≡ option }
{
    match option {
        0 => Notice::Silent,
        1 => Notice::Diverting,
        _ => Notice::DivertingTo,
    }
}

// The number of the caller's notice.
#[tactic(auto, unfolding(crate::specs::Divert::noticed))]
fn noticed_of(notice: Notice, called: Address) -> Number
    ensures { result ≡ noticed (notice_no notice) called }
{
    match notice {
        Notice::DivertingTo => called.number,
        Notice::Silent | Notice::Diverting => blank_number(),
    }
}

// The call goes on to the address of its instance.
#[tactic(auto, unfolding(crate::specs::Divert::onward, crate::specs::Divert::served_of), using(crate::proofs::Options::option_least))]
fn go_on(p: Profile, c: Call, called: Address) -> Diversion
    requires { ((options_for p c).option ≤ 2) × (c.number < numbers_most) × (c.counter < 255) }
    ensures { Becomes (goes p c called) (Ok (Some result)) }
{
    let option = option_after(p, c);
    let own = options_for(p, c);
    let notice = notice_of(option);
    Diversion {
        reason: c.event.reason(),
        notice,
        call: Onward {
            counter: c.counter + 1,
            called,
            redirecting: p.numbers[c.number as usize],
            redirectingshown: own.release,
            originalshown: original_shown(p, c),
            preference: preference_after(c),
            option,
            noticed: noticed_of(notice, called),
        },
    }
}

// The event's instance for the call's number and service decides, and then the limit.
#[tactic(auto, unfolding(crate::specs::Divert::applying), using(crate::proofs::Instances::found_none, crate::proofs::Instances::found_some))]
fn divert_by(p: Profile, run: Run, c: Call) -> Result<Option<Diversion>, Refusal>
    requires { ((options_for p c).option ≤ 2) × (c.number < numbers_most) }
    ensures { Becomes (by_instance p c (applying p (instances_of run) c)) result }
{
    if p.inuse == 0 {
        return Ok(None);
    }
    let key = Key {
        procedure: c.event.procedure(),
        number: c.number,
        service: c.service,
    };
    let Some(address) = run.find(key) else {
        return Ok(None);
    };
    if p.limit <= c.counter {
        return Err(Refusal::LimitReached);
    }
    Ok(Some(go_on(p, c, address)))
}

// What becomes of a call that comes to the access; None where it is not diverted.
#[tactic(auto, unfolding(crate::specs::Divert::comes), using(profile::proofs::Records::read_some, profile::proofs::Records::read_none, crate::proofs::Records::good_call))]
pub fn divert(table: Table, access: &[u8], call: &[u8]) -> Result<Option<Diversion>, Refusal>
    ensures { DivertsTo access.now table call.now result }
{
    // Not ok_or(..)?, which holds the profile twice more: 448 octets of stack.
    let Some(p) = read_access(access) else {
        return Err(Refusal::BadProfile);
    };
    if !table.good(p) {
        return Err(Refusal::BadTable);
    }
    if !call_good(p, call) {
        return Err(Refusal::BadCall);
    }
    divert_by(p, table.run, call_of(call))
}
