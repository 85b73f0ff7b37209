// What arrives at the end, and giving up (document 01, "The customer end", "Local refusals").
ghost use Rattle.std.specs.Prelude.{◌≡◌, ◌≤◌};
ghost use Rattle.lists.specs.Entries.{instances_most, entries_from};
ghost use Rattle.end.specs.End.{used_most, closed};
ghost use Rattle.end.specs.Taking.{doubted, restored, applied_by, learned_by, took, GivesUp};
ghost use Rattle.end.specs.inner.Refused.{move_refused};
ghost use Rattle.instances.specs.Run.{instances_of};
ghost use Rattle.rules.specs.Judge.{judge};

use crate::end::{DOUBT, End, KNOWN, end_good};
use crate::list::{list_good, run_from};
use crate::picture::replaced_by;
use crate::send::marked;
use answers::{Reply, reply_to};
use lists::entries_at;
use profile::{Profile, read_access};
use refusals::Refusal;
use requests::blank_request;
use rules::{apply_request, judge_request};

// The next end, and the refusal where it is refused.
#[derive(Clone, Copy)]
pub struct Moved {
    pub end: End,
    pub outcome: Result<(), Refusal>,
}

// Every way to close a request: its procedure gets this mark.
#[tactic(auto, unfolding(crate::specs::End::closed))]
fn closed(e: &mut End, mark: u8)
    ensures { e.new ≡ closed mark e.old.picture e.old }
{
    e.marks = marked(e.marks, e.request.procedure, mark);
    e.outstanding = 0;
    e.operation = 0;
    e.before = DOUBT;
    e.request = blank_request();
}

// In doubt, and the instances stay as they were.
fn doubted(e: &mut End)
    ensures { e.new ≡ doubted e.old }
{
    closed(e, DOUBT);
}

// The mark from before sending.
fn restored(e: &mut End)
    ensures { e.new ≡ restored e.old }
{
    closed(e, e.before);
}

// A result of an activation or a deactivation: the request is applied to the picture by the exchange's own rules.
fn applied(p: Profile, e: &mut End)
    ensures { e.new ≡ applied_by p e.old (judge instances_most p e.old.operation e.old.request (instances_of e.old.picture)) }
{
    match judge_request(p, e.operation, e.request, e.picture) {
        Err(_) => doubted(e),
        Ok(_) => {
            e.picture = apply_request(p, e.operation, e.request, e.picture);
            restored(e);
        }
    }
}

// A list, whose entries stand from `at` up to `end`.
fn learned(p: Profile, e: &mut End, s: &[u8], at: usize, end: usize)
    ensures { e.new ≡ learned_by p e.old (entries_from instances_most s.now at end) }
{
    let Some(list) = entries_at(s, at, end) else {
        return doubted(e);
    };
    let procedure = e.request.procedure;
    let new = run_from(p, list);
    if !list_good(p, procedure, &new) {
        return doubted(e);
    }
    e.picture = replaced_by(e.picture, procedure, new);
    closed(e, KNOWN);
}

// The step of an arriving component, by value; others have `lent`.
pub(crate) fn took(p: Profile, e: End, s: &[u8]) -> End
    requires { e.used ≤ used_most }
    ensures { result ≡ took p e s.now }
{
    let mut next = e;
    if e.outstanding != 1 {
        return next;
    }
    match reply_to(s, e.used as i16, e.operation) {
        Reply::Dropped => {}
        Reply::Rejected | Reply::Wrong => doubted(&mut next),
        Reply::Failed { value: _ } => restored(&mut next),
        Reply::Done => applied(p, &mut next),
        Reply::Listed { at, end } => learned(p, &mut next, s, at, end),
    }
    next
}

fn refuses(end: End, refusal: Refusal) -> Moved
    ensures { result ≡ move_refused end refusal }
{
    Moved {
        end,
        outcome: Err(refusal),
    }
}

impl End {
    // The answer is waited for no longer.
    pub fn give_up(self, access: &[u8]) -> Moved
        ensures { GivesUp access.now self result }
    {
        let Some(p) = read_access(access) else {
            return refuses(self, Refusal::BadProfile);
        };
        if !end_good(&self, p) {
            return refuses(self, Refusal::BadTable);
        }
        if self.outstanding != 1 {
            return Moved {
                end: self,
                outcome: Ok(()),
            };
        }
        let mut end = self;
        doubted(&mut end);
        Moved {
            end,
            outcome: Ok(()),
        }
    }
}
