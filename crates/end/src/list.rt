// What the end makes of a list's entries (document 01, "The customer end").
ghost use Rattle.std.specs.Prelude.{◌≡◌, true, ◌≤◌, ◌<◌, length, take, drop, get_or, eqb};
ghost use Rattle.lists.specs.Entries.{instances_most, entries_in};
ghost use Rattle.instances.specs.Run.{instances_of, packed, merged, each_good};
ghost use Rattle.end.specs.Listed.{instance_for, instances_listed, list_good, every_of};
ghost use Rattle.end.specs.inner.Listed.{address_held};

use instances::{
    EVERYNUMBER, EVERYSERVICE, Instance, PROCEDURES, Run, Selection, fresh_run, key_of, stored,
};
use lists::{Entries, Entry, INSTANCESMOST};
use profile::{Profile, SERVICES, number_place, service_slot};

// Every instance of a procedure.
pub(crate) fn every_of(procedure: u8) -> Selection
    ensures { result ≡ every_of procedure }
{
    Selection {
        procedure,
        number: EVERYNUMBER,
        service: EVERYSERVICE,
    }
}

// The instances that a run counts.
pub(crate) fn held(run: &Run) -> &[Instance]
    ensures { result.now ≡ instances_of run.now }
{
    let all: &[Instance] = &run.run;
    &all[..all.len().min(run.count as usize)]
}

// An entry's instance; a number that the profile has not has the place after its last.
fn instance_for(p: Profile, x: Entry) -> Instance
    ensures { result ≡ instance_for p x }
{
    Instance {
        procedure: x.procedure,
        number: number_place(p, x.served) as u8,
        service: x.service,
        address: x.address,
    }
}

// The first of some instances goes behind those that come before it; the others ascend.
fn settle(instances: &mut [Instance])
    requires { 0 < length instances.old }
    ensures { instances.new ≡ merged (take 1 instances.old) (drop 1 instances.old) }
{
    let x = instances[0];
    let key = key_of(x.key());
    let others = &instances[1..];
    let lower = others
        .iter()
        .position(|y| key <= key_of(y.key()))
        .unwrap_or(others.len());
    instances[..=lower].rotate_left(1);
}

// The instances of a list, ascending. They are put in their places from the last entry to the first: a list that ascends already is
// only copied.
pub(crate) fn run_from(p: Profile, list: Entries) -> Run
    ensures { result ≡ packed (instances_listed p (entries_in list)) }
{
    let mut next = fresh_run();
    let n = stored(list.count, INSTANCESMOST);
    for i in (0..n).rev() {
        next.run[i] = instance_for(p, list.entries[i]);
        settle(&mut next.run[i..n]);
    }
    next.count = n as u8;
    next
}

// Whether a procedure is one of the three, and subscribed.
fn is_subscribed(subscribed: [u8; PROCEDURES], procedure: u8) -> bool
    ensures { result ≡ eqb (get_or subscribed procedure 0) 1 }
{
    matches!(subscribed.get(procedure as usize), Some(1))
}

// Whether a list's instances are all of the procedure, and obey the rules of a table; the addresses do, since entries with others are not read.
pub(crate) fn list_good(p: Profile, procedure: u8, run: &Run) -> bool
    requires { (run.now.count ≤ instances_most) × (each_good address_held (instances_of run.now) ≡ true) }
    ensures { result ≡ list_good instances_most p procedure (instances_of run.now) }
{
    let subscribed = is_subscribed(p.subscribed, procedure);
    let services = stored(p.servicecount, SERVICES);
    let mut below: usize = 0;
    for x in held(run) {
        if x.procedure != procedure {
            return false;
        }
        if !subscribed {
            return false;
        }
        let key = key_of(x.key());
        if key <= below {
            return false;
        }
        if p.numbercount <= x.number {
            return false;
        }
        if services <= service_slot(p, x.service) {
            return false;
        }
        below = key;
    }
    true
}
