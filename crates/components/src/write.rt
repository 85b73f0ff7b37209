// A request and a list are written, or refused (document 01, "Local refusals").
ghost use Rattle.components.specs.Written.{WritesRequest, WritesList};

use lists::{Entries, INSTANCESMOST, put_list};
use refusals::{OUTPUTLEAST, Refusal};
use requests::{Request, is_sendable, put_request};

// The component of a request at the start of the output.
pub fn write_request(
    out: &mut [u8],
    identifier: i16,
    operation: u8,
    r: Request,
) -> Result<usize, Refusal>
    ensures { WritesRequest identifier operation r out.old result out.new }
{
    if out.len() < OUTPUTLEAST {
        return Err(Refusal::ShortOutput);
    }
    if !is_sendable(operation, r) {
        return Err(Refusal::BadRequest);
    }
    Ok(put_request(out, identifier, operation, r))
}

// The component of a list at the start of the output.
#[tactic(auto, unfolding(crate::specs::Written::wrote_list))]
pub fn write_list(out: &mut [u8], identifier: i16, list: Entries) -> Result<usize, Refusal>
    ensures { WritesList identifier list out.old result out.new }
{
    if out.len() < OUTPUTLEAST {
        return Err(Refusal::ShortOutput);
    }
    if INSTANCESMOST < list.count as usize {
        return Err(Refusal::BadTable);
    }
    Ok(put_list(out, identifier, list))
}
