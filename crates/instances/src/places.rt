// The selected places of a profile: each number with each service.
ghost use Rattle.std.specs.Prelude.{◌≡◌, min, ◌≤◌, length, take};
ghost use Rattle.profile.specs.Profile.{numbers_most, services_most};
ghost use Rattle.instances.specs.Places.{run_most, places_of, Stored};
ghost use Rattle.instances.specs.inner.Few.{items_in};
ghost use Rattle.instances.specs.inner.Places.{numbers_named, services_named, places_named};

use crate::few::Few;
use crate::instance::{EVERYNUMBER, EVERYSERVICE, Selection, is_named};
use crate::run::ROOM;
use profile::{NUMBERS, Profile, SERVICES};

// A number, by its place in the profile, and a service.
#[derive(Clone, Copy)]
pub struct Place {
    pub number: u8,
    pub service: u8,
}

// How many there are in an array of `size` of which so many are counted.
pub fn stored(count: u8, size: usize) -> usize
    ensures { Stored count size result }
{
    (count as usize).min(size)
}

// Of so many numbers those that are asked for, each with each of the services: by number, then service code.
fn places_named(numbers: usize, asked: u8, services: &[u8]) -> Few<Place, ROOM>
    requires { (numbers ≤ numbers_most) × (length services.now ≤ services_most) }
    ensures { items_in result ≡ places_named asked services.now numbers 0 }
{
    let mut places = Few::none(Place {
        number: 0,
        service: 0,
    });
    for a in 0..numbers {
        let number = a as u8;
        if is_named(EVERYNUMBER, asked, number) {
            for service in services {
                places.push(Place {
                    number,
                    service: *service,
                });
            }
        }
    }
    places
}

// The services are gone through once, not for each number, and what is not selected takes no turn.
pub(crate) fn places_of(p: Profile, sel: Selection) -> Few<Place, ROOM>
    ensures { items_in result ≡ places_of p sel }
{
    let numbers = stored(p.numbercount, NUMBERS);
    let services = p.services;
    let named = services_named(&services, p.servicecount, sel.service);
    places_named(numbers, sel.number, named.as_slice())
}

// How many of so many numbers the selection names.
fn numbers_named(count: u8, number: u8) -> usize
    ensures { (result ≡ numbers_named number (min count numbers_most)) × (result ≤ numbers_most) }
{
    let many = stored(count, NUMBERS);
    if number == EVERYNUMBER {
        return many;
    }
    if (number as usize) < many {
        return 1;
    }
    0
}

// Those of the first `count` services that the selection names.
fn services_named(services: &[u8; SERVICES], count: u8, service: u8) -> Few<u8, SERVICES>
    ensures { items_in result ≡ services_named service (take count services.now) }
{
    let codes = &services[..stored(count, SERVICES)];
    let mut named = Few::none(0);
    for code in codes {
        if is_named(EVERYSERVICE, service, *code) {
            named.push(*code);
        }
    }
    named
}

// How many places are selected: each named number has each named service.
pub(crate) fn places_count(p: Profile, sel: Selection) -> usize
    ensures { (result ≡ length (places_of p sel)) × (result ≤ run_most) }
{
    let services = p.services;
    let many = services_named(&services, p.servicecount, sel.service).len();
    numbers_named(p.numbercount, sel.number) * many
}
