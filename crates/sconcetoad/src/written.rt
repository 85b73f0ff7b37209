// Components that C has written, and how C is told of what was written: a request, and the list of an interrogation.
ghost use Rattle.std.specs.Prelude.{◌≡◌};
ghost use Rattle.refusals.specs.Refusal.{refusal_in};
ghost use Rattle.refusals.specs.Handling.{handling_told, written_count};
ghost use Rattle.sconcetoad.specs.Written.{OctetsTold, RequestWrittenBy, ListWrittenBy};

use components::{write_list, write_request};
use lists::Entries;
use refusals::Refusal;
use requests::Request;

// The number of the refusal, 0 where there is none; and how many octets were written.
#[repr(C)]
#[derive(Clone, Copy)]
pub struct Octets {
    pub refusal: u8,
    pub count: usize,
}

pub(crate) fn refusal_in<T: Copy>(outcome: Result<T, Refusal>) -> u8
    ensures { result ≡ refusal_in (handling_told outcome) }
{
    match outcome {
        Ok(_) => 0,
        Err(refusal) => u8::from(refusal),
    }
}

pub(crate) fn count_in(outcome: Result<usize, Refusal>) -> usize
    ensures { result ≡ written_count outcome }
{
    outcome.unwrap_or(0)
}

impl From<Result<usize, Refusal>> for Octets {
    ghost from_gives = { OctetsTold };

    fn from(outcome: Result<usize, Refusal>) -> Octets {
        Octets {
            refusal: refusal_in(outcome),
            count: count_in(outcome),
        }
    }
}

// The component of a request at the start of `out`.
#[unsafe(no_mangle)]
pub extern "C" fn sconcetoad_put_request(
    out: &mut [u8],
    identifier: i16,
    operation: u8,
    request: Request,
) -> Octets
    ensures { RequestWrittenBy identifier operation request out.old result out.new }
{
    Octets::from(write_request(out, identifier, operation, request))
}

// The result of an interrogation at the start of `out`.
#[unsafe(no_mangle)]
pub extern "C" fn sconcetoad_put_list(out: &mut [u8], identifier: i16, list: Entries) -> Octets
    ensures { ListWrittenBy identifier list out.old result out.new }
{
    Octets::from(write_list(out, identifier, list))
}
