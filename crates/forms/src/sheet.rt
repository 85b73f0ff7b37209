// A night sheet by the rules of its form alone, in one walk (document 01, "Night sheet").
ghost use Rattle.std.specs.Prelude.{◌≡◌, ◌≤◌};
ghost use Rattle.octets.specs.Found.{found};
ghost use Rattle.instances.specs.Places.{run_most};
ghost use Rattle.instances.specs.Run.{packed};
ghost use Rattle.forms.specs.Sheet.{instances_from, sheet_in};
ghost use Rattle.forms.specs.Formed.{form_read, ReadForm};
ghost use Rattle.forms.specs.inner.Reading.{got_as, opening_in, Fitting};

use crate::field::{field_at, field_below};
use crate::form::{Form, form_one};
use crate::read::instance_at;
use instances::{ROOM, Run, fresh_run};
use octets::Found;

// What stands before the instances.
#[derive(Clone, Copy)]
pub(crate) struct Opening {
    last: u16,
    count: u32,
}

// The last handled identifier and the instances of a sheet.
#[derive(Clone, Copy)]
pub struct FormRead {
    pub last: u16,
    pub run: Run,
}

// Form, last handled, instance count.
fn opening_of(f: Form, s: &[u8]) -> Option<Found<Opening>>
    ensures { result ≡ found (opening_in f s.now) }
{
    let form = field_at(s, 0)?;
    let code = f.code as u32;
    if form.value != code {
        return None;
    }
    let most = f.lastmost as u32;
    let last = field_below(s, form.next, most + 1)?;
    let count = field_at(s, last.next)?;
    Some(Found {
        value: Opening {
            last: last.value as u16,
            count: count.value,
        },
        next: count.next,
    })
}

// `count` instances from `at` on, one after the other.
fn instances_from(f: Form, s: &[u8], at: usize, count: usize) -> Option<Found<Run>>
    requires { count ≤ run_most }
    ensures { result ≡ found (got_as packed (instances_from f count s.now at)) }
{
    let mut run = fresh_run();
    let mut here = at;
    for i in 0..count {
        let read = instance_at(f, s, here)?;
        run.run[i] = read.value;
        here = read.next;
    }
    run.count = count as u8;
    Some(Found {
        value: run,
        next: here,
    })
}

// A sheet of a form whose instances a run has room for: one that counts more has too many of a procedure.
fn form_in(f: Form, s: &[u8]) -> Option<FormRead>
    requires { Fitting f }
    ensures { result ≡ form_read (sheet_in f s.now) }
{
    let opening = opening_of(f, s)?;
    let count = opening.value.count as usize;
    if ROOM < count {
        return None;
    }
    let read = instances_from(f, s, opening.next, count)?;
    if read.next != s.len() {
        return None;
    }
    if !read.value.ordered(f.perprocedure) {
        return None;
    }
    Some(FormRead {
        last: opening.value.last,
        run: read.value,
    })
}

// A night sheet of form 1, without a profile.
pub fn read_form(s: &[u8]) -> Option<FormRead>
    ensures { ReadForm s.now result }
{
    let f = form_one();
    form_in(f, s)
}
