// A run of instances, ascending by procedure, number and service (document 01, "Profile and table", "Replies").
ghost use Rattle.std.specs.Prelude.{◌≡◌, ◌≤◌, length};
ghost use Rattle.instances.specs.Places.{run_most};
ghost use Rattle.instances.specs.Run.{instances_of, served_number, FreshRun, FindsAddress, ChosenCount, Clear, Put, Renew, CountAfter, EntriesOf};

use crate::instance::{
    Instance, Key, PROCEDURES, Selection, blank_instance, is_at, is_before, is_chosen, is_concerned,
};
use crate::places::{places_count, places_of, stored};
use lists::{Entries, Entry, INSTANCESMOST, no_entries};
use numbers::{Address, Number, blank_number};
use profile::{NUMBERS, Profile};

// The most instances: 8 for each procedure. A profile has no more places.
pub const ROOM: usize = PROCEDURES * INSTANCESMOST;

// `count` instances. Places past the count carry no meaning.
#[repr(C)]
#[derive(Clone, Copy)]
pub struct Run {
    pub count: u8,
    pub run: [Instance; ROOM],
}

// How many instances of a procedure there are after an activation; `renews` where as many are selected as places.
#[derive(Clone, Copy)]
pub struct After {
    pub count: usize,
    pub renews: bool,
}

// A run that holds nothing.
pub fn fresh_run() -> Run
    ensures { FreshRun result }
{
    let none = blank_instance();
    Run {
        count: 0,
        run: [none; ROOM],
    }
}

// The profile's own number.
pub(crate) fn served_number(numbers: &[Number; NUMBERS], number: u8) -> Number
    ensures { result ≡ served_number numbers.now number }
{
    match numbers.get(number as usize) {
        Some(own) => *own,
        None => blank_number(),
    }
}

impl Run {
    // The instances that it counts.
    pub(crate) fn instances(&self) -> &[Instance]
        ensures held { result.now ≡ instances_of self.now }
        ensures few { length result.now ≤ run_most }
    {
        &self.run[..stored(self.count, ROOM)]
    }

    // The address of the instance of a procedure, number and service.
    pub fn find(self, key: Key) -> Option<Address>
        ensures { FindsAddress key self result }
    {
        for x in self.instances() {
            if is_at(key, *x) {
                return Some(x.address);
            }
        }
        None
    }

    // How many selected instances there are.
    pub fn chosen_count(self, sel: Selection) -> usize
        ensures { ChosenCount sel self result }
    {
        self.instances()
            .iter()
            .filter(|x| is_chosen(sel, **x))
            .count()
    }

    // The run without the selected instances.
    pub fn clear(self, sel: Selection) -> Run
        ensures { Clear sel self result }
    {
        let mut next = fresh_run();
        let mut k: usize = 0;
        for x in self.instances() {
            if !is_chosen(sel, *x) {
                next.run[k] = *x;
                k += 1;
            }
        }
        next.count = k as u8;
        next
    }

    // The selected numbers and services of the profile get the address.
    pub fn put(self, p: Profile, sel: Selection, address: Address) -> Run
        ensures { Put p sel address self result }
    {
        let made = places_of(p, sel);
        let places = made.as_slice();
        let held = self.instances();
        let procedure = sel.procedure;
        let mut next = fresh_run();
        let mut k: usize = 0;
        let mut m: usize = 0;
        let mut i: usize = 0;
        // Two cursors, of which each turn moves one, and the places that are filled: no `for` moves them.
        while k < ROOM {
            if i < held.len() {
                let x = held[i];
                if is_chosen(sel, x) {
                    i += 1;
                } else if m < places.len() {
                    let w = places[m];
                    let key = Key {
                        procedure,
                        number: w.number,
                        service: w.service,
                    };
                    if is_before(key, x) {
                        next.run[k] = x;
                        i += 1;
                    } else {
                        next.run[k] = Instance {
                            procedure,
                            number: w.number,
                            service: w.service,
                            address,
                        };
                        m += 1;
                    }
                    k += 1;
                } else {
                    next.run[k] = x;
                    k += 1;
                    i += 1;
                }
            } else if m < places.len() {
                let w = places[m];
                next.run[k] = Instance {
                    procedure,
                    number: w.number,
                    service: w.service,
                    address,
                };
                k += 1;
                m += 1;
            } else {
                break;
            }
        }
        next.count = k as u8;
        next
    }

    // Each selected instance gets the address where it stands.
    pub fn renew(self, sel: Selection, address: Address) -> Run
        ensures { Renew sel address self result }
    {
        let none = blank_instance();
        let n = stored(self.count, ROOM);
        let mut next = self;
        for i in 0..ROOM {
            if i < n {
                let older = next.run[i];
                if is_chosen(sel, older) {
                    next.run[i].address = address;
                }
            } else {
                next.run[i] = none;
            }
        }
        next.count = n as u8;
        next
    }

    // How many instances of the procedure there are after an activation, and whether it only renews those that are selected.
    pub fn count_after(self, p: Profile, sel: Selection) -> After
        ensures { CountAfter p sel self result }
    {
        let places = places_count(p, sel);
        let mut found: usize = 0;
        let mut others: usize = 0;
        for x in self.instances() {
            if is_concerned(sel, x.procedure) {
                if is_chosen(sel, *x) {
                    found += 1;
                } else {
                    others += 1;
                }
            }
        }
        After {
            count: places + others,
            renews: found == places,
        }
    }

    // The selected instances, in order.
    pub fn entries(self, p: Profile, sel: Selection) -> Entries
        ensures { EntriesOf p sel self result }
    {
        let mut list = no_entries();
        let numbers = p.numbers;
        let mut k: usize = 0;
        for x in self.instances() {
            // A `break` would copy the list.
            if k == INSTANCESMOST {
                list.count = k as u8;
                return list;
            }
            if is_chosen(sel, *x) {
                list.entries[k] = Entry {
                    served: served_number(&numbers, x.number),
                    service: x.service,
                    procedure: x.procedure,
                    address: x.address,
                };
                k += 1;
            }
        }
        list.count = k as u8;
        list
    }
}
