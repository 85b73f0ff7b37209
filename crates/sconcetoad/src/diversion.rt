// Calls, as C puts them.
ghost use Rattle.std.specs.Prelude.{◌≡◌};
ghost use Rattle.calls.specs.Divert.{no_onward};
ghost use Rattle.sconcetoad.specs.Diversion.{DivertedBy, HandsOn};

use calls::{Onward, divert, original};
use exchange::Table;
use numbers::{blank_address, blank_number};

// The numbers of the refusal, of the reason and of the notice, each 0 where there is none; and the call that goes on.
#[repr(C)]
#[derive(Clone, Copy)]
pub struct Diverted {
    pub refusal: u8,
    pub reason: u8,
    pub notice: u8,
    pub call: Onward,
}

// What becomes of the call, told as above; how many digits the original number has that it hands on; and how many were written.
#[repr(C)]
#[derive(Clone, Copy)]
pub struct HandedOn {
    pub refusal: u8,
    pub reason: u8,
    pub length: usize,
    pub count: usize,
}

// The call that C reads where none goes on.
fn no_onward() -> Onward
    ensures { result ≡ no_onward }
{
    let none = blank_number();
    Onward {
        counter: 0,
        called: blank_address(),
        redirecting: none,
        redirectingshown: 0,
        originalshown: 0,
        preference: 0,
        option: 0,
        noticed: none,
    }
}

// What becomes of `call`.
#[unsafe(no_mangle)]
pub extern "C" fn sconcetoad_divert(table: Table, access: &[u8], call: &[u8]) -> Diverted
    ensures { DivertedBy access.now table call.now result }
{
    match divert(table, access, call) {
        Err(refusal) => Diverted {
            refusal: u8::from(refusal),
            reason: 0,
            notice: 0,
            call: no_onward(),
        },
        Ok(None) => Diverted {
            refusal: 0,
            reason: 0,
            notice: 0,
            call: no_onward(),
        },
        Ok(Some(d)) => Diverted {
            refusal: 0,
            reason: u8::from(d.reason),
            notice: u8::from(d.notice),
            call: d.call,
        },
    }
}

// How many digits the original number has that `call` hands on, and how many were written at the start of `out`: all or none.
#[unsafe(no_mangle)]
pub extern "C" fn sconcetoad_original<'a>(
    table: Table,
    access: &'a [u8],
    call: &'a [u8],
    out: &mut [u8],
) -> HandedOn
    ensures { HandsOn access.now table call.now out.old result out.new }
{
    match original(table, access, call, out) {
        Err(refusal) => HandedOn {
            refusal: u8::from(refusal),
            reason: 0,
            length: 0,
            count: 0,
        },
        Ok(None) => HandedOn {
            refusal: 0,
            reason: 0,
            length: 0,
            count: 0,
        },
        Ok(Some(h)) => HandedOn {
            refusal: 0,
            reason: u8::from(h.reason),
            length: h.length,
            count: h.count,
        },
    }
}
