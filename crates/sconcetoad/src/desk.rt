// The customer end, as C drives it.
ghost use Rattle.std.specs.Prelude.{◌≡◌};
ghost use Rattle.end.specs.End.{FreshEnd};
ghost use Rattle.end.specs.Shown.{shown_no};
ghost use Rattle.sconcetoad.specs.Desk.{page_of, ActivatedBy, DeactivatedBy, InterrogatedBy, TakenBy, GivenUpBy, PageBy, PageEntryBy};

use crate::written::{count_in, refusal_in};
use end::{End, Shown, arrived, fresh_end};
use lists::Entry;
use refusals::Refusal;
use requests::Request;

// A mark, and what stands for the count of a procedure that is not known.
const KNOWN: u8 = 1;

const DOUBT: u8 = 0;

const NOCOUNT: usize = 255;

// The number of the refusal, 0 where the request is sent; how many octets its component has; and the next end.
#[repr(C)]
#[derive(Clone, Copy)]
pub struct Sending {
    pub refusal: u8,
    pub count: usize,
    pub end: End,
}

// The number of the refusal, 0 where there is none; and the next end.
#[repr(C)]
#[derive(Clone, Copy)]
pub struct Moving {
    pub refusal: u8,
    pub end: End,
}

// The number of the refusal, 0 where there is none; the mark; and how many entries a known procedure has, else 255.
#[repr(C)]
#[derive(Clone, Copy)]
pub struct Page {
    pub refusal: u8,
    pub mark: u8,
    pub count: usize,
}

// A page, and the entry.
#[repr(C)]
#[derive(Clone, Copy)]
pub struct PageEntry {
    pub page: Page,
    pub entry: Entry,
}

// An end that has sent nothing.
#[unsafe(no_mangle)]
pub extern "C" fn sconcetoad_fresh_end() -> End
    ensures { FreshEnd result }
{
    fresh_end()
}

// `end` sends an activation: its component stands at the start of `out`.
#[unsafe(no_mangle)]
pub extern "C" fn sconcetoad_activate(
    end: End,
    access: &[u8],
    request: Request,
    out: &mut [u8],
) -> Sending
    ensures { ActivatedBy access.now request end out.old result out.new }
{
    let sent = end.activate(access, request, out);
    let outcome = sent.outcome;
    let next = sent.end;
    Sending {
        refusal: refusal_in(outcome),
        count: count_in(outcome),
        end: next,
    }
}

// `end` sends a deactivation.
#[unsafe(no_mangle)]
pub extern "C" fn sconcetoad_deactivate(
    end: End,
    access: &[u8],
    request: Request,
    out: &mut [u8],
) -> Sending
    ensures { DeactivatedBy access.now request end out.old result out.new }
{
    let sent = end.deactivate(access, request, out);
    let outcome = sent.outcome;
    let next = sent.end;
    Sending {
        refusal: refusal_in(outcome),
        count: count_in(outcome),
        end: next,
    }
}

// `end` sends the interrogation of a procedure, of all services and all numbers.
#[unsafe(no_mangle)]
pub extern "C" fn sconcetoad_interrogate(
    end: End,
    access: &[u8],
    procedure: u8,
    out: &mut [u8],
) -> Sending
    ensures { InterrogatedBy access.now procedure end out.old result out.new }
{
    let sent = end.interrogate(access, procedure, out);
    let outcome = sent.outcome;
    let next = sent.end;
    Sending {
        refusal: refusal_in(outcome),
        count: count_in(outcome),
        end: next,
    }
}

// What `end` becomes, where it stands, when `component` arrives; the number of the refusal, 0 where there is none.
#[unsafe(no_mangle)]
pub extern "C" fn sconcetoad_arrived(end: &mut End, access: &[u8], component: &[u8]) -> u8
    ensures { TakenBy access.now end.old component.now result end.new }
{
    refusal_in(arrived(end, access, component))
}

// What `end` becomes when it gives up.
#[unsafe(no_mangle)]
pub extern "C" fn sconcetoad_give_up(end: End, access: &[u8]) -> Moving
    ensures { GivenUpBy access.now end result }
{
    let moved = end.give_up(access);
    let outcome = moved.outcome;
    let next = moved.end;
    Moving {
        refusal: refusal_in(outcome),
        end: next,
    }
}

fn page_of(shown: Result<Shown, Refusal>) -> Page
    ensures { result ≡ page_of (shown_no shown) }
{
    let told = match shown {
        Ok(told) => told,
        Err(refusal) => {
            return Page {
                refusal: u8::from(refusal),
                mark: DOUBT,
                count: NOCOUNT,
            };
        }
    };
    match told {
        Shown::Known { count } => Page {
            refusal: 0,
            mark: KNOWN,
            count,
        },
        Shown::Doubt => Page {
            refusal: 0,
            mark: DOUBT,
            count: NOCOUNT,
        },
    }
}

// What the page reads of a procedure.
#[unsafe(no_mangle)]
pub extern "C" fn sconcetoad_shown(end: End, access: &[u8], procedure: u8) -> Page
    ensures { PageBy access.now end procedure result }
{
    let shown = end.shown(access, procedure);
    page_of(shown)
}

// The entry at the place `i` of a procedure that is known.
#[unsafe(no_mangle)]
pub extern "C" fn sconcetoad_entry(end: End, access: &[u8], procedure: u8, i: usize) -> PageEntry
    ensures { PageEntryBy access.now end procedure i result }
{
    let out = end.entry(access, procedure, i);
    let shown = out.shown;
    let entry = out.entry;
    PageEntry {
        page: page_of(shown),
        entry,
    }
}
