// The record of an end, and whether it breaks a rule.
ghost use Rattle.std.specs.Prelude.{◌≡◌};
ghost use Rattle.laws.specs.Tests.{all};
ghost use Rattle.end.specs.End.{end_rules, marks_good, FreshEnd, EndGood};

use instances::{PROCEDURES, Run, fresh_run};
use profile::Profile;
use requests::{Request, blank_request, is_sendable};

// A mark, by the number that C's record has: the procedure is known, or in doubt.
pub(crate) const KNOWN: u8 = 1;

pub(crate) const DOUBT: u8 = 0;

pub(crate) const USEDMOST: u16 = 32767;

// `used` is the last used identifier. Where `outstanding` is 1 the request of that identifier has not been answered, and `before` is its
// procedure's mark from before sending; else operation, request and `before` carry no meaning. C has the record, so all of them are numbers.
#[repr(C)]
#[derive(Clone, Copy)]
pub struct End {
    pub used: u16,
    pub outstanding: u8,
    pub operation: u8,
    pub before: u8,
    pub request: Request,
    pub marks: [u8; PROCEDURES],
    pub picture: Run,
}

// An end that has sent nothing.
pub fn fresh_end() -> End
    ensures { FreshEnd result }
{
    let request = blank_request();
    let picture = fresh_run();
    End {
        used: 0,
        outstanding: 0,
        operation: 0,
        before: DOUBT,
        request,
        marks: [KNOWN; PROCEDURES],
        picture,
    }
}

#[tactic(auto, unfolding(crate::specs::End::marks_good))]
fn marks_good(marks: [u8; PROCEDURES]) -> bool
    ensures { result ≡ marks_good marks }
{
    marks.iter().all(|mark| *mark <= KNOWN)
}

// Whether all but the picture breaks no rule. The end is looked at where it stands: taken by value, it would be copied.
#[tactic(auto, unfolding(crate::specs::End::waiting_good))]
fn rules_hold(e: &End) -> bool
    ensures { result ≡ all (end_rules e.now) }
{
    if USEDMOST < e.used {
        return false;
    }
    if 1 < e.outstanding {
        return false;
    }
    if !marks_good(e.marks) {
        return false;
    }
    if e.outstanding == 0 {
        return true;
    }
    if e.used == 0 {
        return false;
    }
    if 1 < e.before {
        return false;
    }
    is_sendable(e.operation, e.request)
}

// Whether an end breaks no rule of the profile.
#[tactic(auto, unfolding(crate::specs::End::end_good))]
pub(crate) fn end_good(e: &End, p: Profile) -> bool
    ensures { EndGood p e.now result }
{
    rules_hold(e) && e.picture.good(p)
}

impl End {
    // Whether an end breaks no rule of the profile.
    pub fn good(self, p: Profile) -> bool
        ensures { EndGood p self result }
    {
        end_good(&self, p)
    }
}
