// The original called number handed on, as it stands in the call's record or the access's (document 01, "Calls").
ghost use Rattle.std.specs.Prelude.{◌≡◌};
ghost use Rattle.profile.specs.Access.{access_read};
ghost use Rattle.calls.specs.Call.{call_from};
ghost use Rattle.calls.specs.Original.{handed_on, PutsOriginal};
ghost use Rattle.calls.specs.inner.Original.{GoesOn};

use crate::call::{ORIGINALAT, call_of};
use crate::diverting::{Notice, divert};
use crate::onward::Reason;
use exchange::Table;
use numbers::Number;
use octets::put_all;
use profile::{NUMBERSAT, NUMBERSIZE};
use refusals::Refusal;

// Where the digits stand in a number's record: after its form, type and count.
const DIGITSAT: usize = 3;

// A diverted call: why, what the caller is told, how many digits the original number has that it hands on, and how many were written.
#[derive(Clone, Copy)]
pub struct Handed {
    pub reason: Reason,
    pub notice: Notice,
    pub length: usize,
    pub count: usize,
}

// The digits of the original number that a diverted call hands on, where they stand.
#[tactic(auto, using(crate::proofs::Records::good_call, crate::proofs::Comings::served_within, crate::proofs::Comings::original_first, crate::proofs::Comings::original_later))]
fn handed_on<'a>(access: &'a [u8], call: &'a [u8], served: Number) -> &'a [u8]
    requires { GoesOn access.now call.now served }
    ensures { result.now ≡ handed_on access.now call.now (access_read access.now).profile (call_from call.now) }
{
    let c = call_of(call);
    if c.counter == 0 {
        let from = NUMBERSAT + NUMBERSIZE * c.number as usize + DIGITSAT;
        return &access[from..from + served.count as usize];
    }
    &call[ORIGINALAT..ORIGINALAT + c.count as usize]
}

// What becomes of a call, and the digits of its original number at the start of `out`: all or none.
#[tactic(auto, using(crate::proofs::Comings::goes_good))]
pub fn original<'a>(
    table: Table,
    access: &'a [u8],
    call: &'a [u8],
    out: &mut [u8],
) -> Result<Option<Handed>, Refusal>
    ensures { PutsOriginal access.now table call.now out.old result out.new }
{
    let Some(d) = divert(table, access, call)? else {
        return Ok(None);
    };
    let digits = handed_on(access, call, d.call.redirecting);
    let count = put_all(out, 0, digits);
    Ok(Some(Handed {
        reason: d.reason,
        notice: d.notice,
        length: digits.len(),
        count,
    }))
}
