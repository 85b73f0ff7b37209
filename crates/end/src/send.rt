// The end sends a request, one at a time (document 01, "The customer end", "Local refusals").
ghost use Rattle.std.specs.Prelude.{◌≡◌, ◌<◌, length};
ghost use Rattle.end.specs.End.{used_most, mark_at, marked};
ghost use Rattle.end.specs.Sending.{interrogation_of, marks_sent, sent, sends, SendsBy, Activates, Deactivates, Interrogates};
ghost use Rattle.end.specs.inner.Sending.{WrittenBy, IdentifierLeft, end_after};

use crate::end::{DOUBT, End, USEDMOST, end_good};
use codes::{ACTIVATION, DEACTIVATION, INTERROGATION};
use instances::PROCEDURES;
use numbers::blank_number;
use profile::read_access;
use refusals::{OUTPUTLEAST, Refusal};
use requests::{Request, Served, blank_request, put_request};

// The next end; and how many octets the component has, or the refusal.
#[derive(Clone, Copy)]
pub struct Sent {
    pub end: End,
    pub outcome: Result<usize, Refusal>,
}

// The interrogation of a procedure: all services, all numbers.
fn interrogation_of(procedure: u8) -> Request
    ensures { result ≡ interrogation_of procedure }
{
    Request {
        procedure,
        service: 0,
        served: Served {
            all: 1,
            number: blank_number(),
        },
        ..blank_request()
    }
}

#[tactic(auto, unfolding(crate::specs::End::mark_at))]
pub(crate) fn mark_at(marks: [u8; PROCEDURES], procedure: u8) -> u8
    ensures { result ≡ mark_at procedure marks }
{
    marks.get(procedure as usize).copied().unwrap_or(DOUBT)
}

#[tactic(auto, unfolding(crate::specs::End::marked))]
pub(crate) fn marked(marks: [u8; PROCEDURES], procedure: u8, mark: u8) -> [u8; PROCEDURES]
    ensures { result ≡ marked procedure mark marks }
{
    let mut next = marks;
    let k = procedure as usize;
    // By a test, since nothing is known of what `get_mut` leaves.
    if k < next.len() {
        next[k] = mark;
    }
    next
}

#[tactic(auto, unfolding(crate::specs::Sending::marks_sent))]
fn marks_sent(marks: [u8; PROCEDURES], operation: u8, procedure: u8) -> [u8; PROCEDURES]
    ensures { result ≡ marks_sent operation procedure marks }
{
    if operation == INTERROGATION {
        return marks;
    }
    marked(marks, procedure, DOUBT)
}

// The end that waits for the answer.
#[tactic(auto, unfolding(crate::specs::Sending::sent))]
fn waiting(e: &End, operation: u8, r: Request) -> End
    requires { e.now.used < used_most }
    ensures { result ≡ sent operation r e.now }
{
    End {
        used: e.used + 1,
        outstanding: 1,
        operation,
        before: mark_at(e.marks, r.procedure),
        request: r,
        marks: marks_sent(e.marks, operation, r.procedure),
        picture: e.picture,
    }
}

// Writes the request, or refuses it. An output of the least size has room for every request: where none is written, it may not be sent.
fn send(e: &End, access: &[u8], operation: u8, r: Request, out: &mut [u8]) -> Result<usize, Refusal>
    ensures { WrittenBy (sends access.now operation r e.now (length out.old)) out.old result out.new }
{
    if out.len() < OUTPUTLEAST {
        return Err(Refusal::ShortOutput);
    }
    let Some(p) = read_access(access) else {
        return Err(Refusal::BadProfile);
    };
    if !end_good(e, p) {
        return Err(Refusal::BadTable);
    }
    if e.outstanding == 1 {
        return Err(Refusal::Outstanding);
    }
    if e.used == USEDMOST {
        return Err(Refusal::Exhausted);
    }
    let identifier = e.used + 1;
    let count = put_request(out, identifier as i16, operation, r);
    if count == 0 {
        return Err(Refusal::BadRequest);
    }
    Ok(count)
}

// What is refused leaves the end as it was.
fn end_after(e: &End, operation: u8, r: Request, outcome: Result<usize, Refusal>) -> End
    requires { IdentifierLeft e.now outcome }
    ensures { result ≡ end_after operation r e.now outcome }
{
    match outcome {
        Err(_) => *e,
        Ok(_) => waiting(e, operation, r),
    }
}

// The request written, or refused, and the end after it.
fn sends(e: &End, access: &[u8], operation: u8, r: Request, out: &mut [u8]) -> Sent
    ensures { SendsBy (sends access.now operation r e.now (length out.old)) out.old result out.new }
{
    let outcome = send(e, access, operation, r, out);
    Sent {
        end: end_after(e, operation, r, outcome),
        outcome,
    }
}

impl End {
    // Sends an activation; its component is written at the start of the output.
    pub fn activate(self, access: &[u8], request: Request, out: &mut [u8]) -> Sent
        ensures { Activates access.now request self out.old result out.new }
    {
        sends(&self, access, ACTIVATION, request, out)
    }

    // Sends a deactivation; the request's forwarded-to address carries no meaning.
    pub fn deactivate(self, access: &[u8], request: Request, out: &mut [u8]) -> Sent
        ensures { Deactivates access.now request self out.old result out.new }
    {
        sends(&self, access, DEACTIVATION, request, out)
    }

    // Sends the interrogation of a procedure, of all services and all numbers.
    pub fn interrogate(self, access: &[u8], procedure: u8, out: &mut [u8]) -> Sent
        ensures { Interrogates access.now procedure self out.old result out.new }
    {
        sends(
            &self,
            access,
            INTERROGATION,
            interrogation_of(procedure),
            out,
        )
    }
}
