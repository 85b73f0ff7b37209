// Which instances a request selects (document 01, "Replies": "Served number").
ghost use Rattle.std.specs.Prelude.{◌≡◌};
ghost use Rattle.rules.specs.Selection.{number_asked, SelectionOf};

use instances::{EVERYNUMBER, Selection};
use profile::{Profile, number_place};
use requests::Request;

// The place of the one number that a request selects, or that it selects every number.
fn number_asked(p: Profile, r: Request) -> u8
    ensures { result ≡ number_asked p r.served }
{
    if p.msn == 0 {
        return EVERYNUMBER;
    }
    if r.served.all == 1 {
        return EVERYNUMBER;
    }
    number_place(p, r.served.number) as u8
}

// The instances that a request selects. Not inlined, for the stack's sake, as `question_of` of the exchange.
#[inline(never)]
pub fn selection_of(p: Profile, r: Request) -> Selection
    ensures { SelectionOf p r result }
{
    Selection {
        procedure: r.procedure,
        number: number_asked(p, r),
        service: r.service,
    }
}
