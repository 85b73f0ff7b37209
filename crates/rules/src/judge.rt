// A request is judged, and applied to the instances of a table or a picture (document 01, "Replies, in the order checked").
ghost use Rattle.std.specs.Prelude.{◌≡◌};
ghost use Rattle.lists.specs.Entries.{instances_most};
ghost use Rattle.rules.specs.Judge.{is_subscribed, fits, first_error, verdict_no, every_tests, activation_tests, deactivation_tests, JudgeRequest, ApplyRequest, RenewRequest};

use crate::error::RequestError;
use crate::prefix::begins_any;
use crate::selection::selection_of;
use crate::tests::{not_provided, other_kind, selected_same, served_invalid};
use codes::{ACTIVATION, DEACTIVATION, PROCEDURES};
use instances::Run;
use lists::INSTANCESMOST;
use profile::Profile;
use requests::Request;

// Whether the profile has the procedure.
#[tactic(auto, unfolding(crate::specs::Judge::is_subscribed))]
fn is_subscribed(p: Profile, procedure: u8) -> bool
    ensures { result ≡ is_subscribed p procedure }
{
    // These three flags are copied: an index into the profile would copy all of it.
    let subscribed = p.subscribed;
    procedure < PROCEDURES && subscribed[procedure as usize] != 0
}

// The tests of every request.
fn judge_every(p: Profile, r: Request) -> Result<(), RequestError>
    ensures { verdict_no result ≡ first_error (every_tests p r) }
{
    if p.inuse == 0 {
        return Err(RequestError::NotAvailable);
    }
    if !is_subscribed(p, r.procedure) {
        return Err(RequestError::NotSubscribed);
    }
    if served_invalid(p, r) {
        return Err(RequestError::InvalidServedUserNr);
    }
    Ok(())
}

// Whether so many instances of a procedure may be.
#[tactic(auto, unfolding(crate::specs::Judge::fits))]
fn fits(p: Profile, count: usize) -> bool
    ensures { result ≡ fits instances_most p count }
{
    count <= INSTANCESMOST
}

// The tests of an activation that selects the number `asked`, or all, and after which there are so many instances of its procedure.
fn judge_activation(p: Profile, r: Request, asked: u8, count: usize) -> Result<(), RequestError>
    ensures { verdict_no result ≡ first_error (activation_tests instances_most p r asked count) }
{
    if not_provided(p, r) {
        return Err(RequestError::BasicServiceNotProvided);
    }
    if r.to.user == 1 {
        return Err(RequestError::ResourceUnavailable);
    }
    let number = r.to.address.number;
    if other_kind(number) {
        return Err(RequestError::InvalidDivertedToNr);
    }
    if begins_any(p, number) {
        return Err(RequestError::SpecialServiceNr);
    }
    if selected_same(p, asked, number) {
        return Err(RequestError::DiversionToServedUserNr);
    }
    if !fits(p, count) {
        return Err(RequestError::ResourceUnavailable);
    }
    Ok(())
}

// The test of a deactivation of so many instances.
fn judge_deactivation(count: usize) -> Result<(), RequestError>
    ensures { verdict_no result ≡ first_error (deactivation_tests count) }
{
    if count == 0 {
        return Err(RequestError::NotActivated);
    }
    Ok(())
}

// The first test that holds decides. A request that passes may be an activation that makes no further instance, and only renews.
pub fn judge_request(p: Profile, operation: u8, r: Request, run: Run) -> Result<bool, RequestError>
    ensures { JudgeRequest p operation r run result }
{
    judge_every(p, r)?;
    let sel = selection_of(p, r);
    if operation == ACTIVATION {
        let after = run.count_after(p, sel);
        judge_activation(p, r, sel.number, after.count)?;
        return Ok(after.renews);
    }
    if operation == DEACTIVATION {
        judge_deactivation(run.chosen_count(sel))?;
    }
    Ok(false)
}

// What the instances become.
pub fn apply_request(p: Profile, operation: u8, r: Request, run: Run) -> Run
    ensures { ApplyRequest p operation r run result }
{
    if operation == ACTIVATION {
        let sel = selection_of(p, r);
        return run.put(p, sel, r.to.address);
    }
    if operation == DEACTIVATION {
        let sel = selection_of(p, r);
        return run.clear(sel);
    }
    run
}

// What the instances become where an activation only renews them, each where it stands.
pub fn renew_request(p: Profile, r: Request, run: Run) -> Run
    ensures { RenewRequest p r run result }
{
    let sel = selection_of(p, r);
    run.renew(sel, r.to.address)
}
