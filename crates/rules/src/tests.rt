// The tests of registration, one by one.
ghost use Rattle.std.specs.Prelude.{◌≡◌};
ghost use Rattle.profile.specs.Profile.{served_numbers};
ghost use Rattle.rules.specs.Judge.{has_all_numbers, is_served, served_invalid, is_provided, not_provided, other_kind, selected_same};

use instances::{EVERYNUMBER, is_named, stored};
use numbers::{Number, OTHER, PUBLIC};
use profile::{NUMBERS, Profile, number_place, same, service_slot};
use requests::Request;

// The type that is told apart, and the most digits of an international number.
const INTERNATIONAL: u8 = 1;

const INTERNATIONALMOST: u8 = 15;

// The "all numbers" option.
#[tactic(auto, unfolding(crate::specs::Judge::has_all_numbers))]
fn has_all_numbers(p: Profile) -> bool
    ensures { result ≡ has_all_numbers p }
{
    p.all != 0
}

// Whether a number is one of the profile's.
fn is_served(p: Profile, n: Number) -> bool
    ensures { result ≡ is_served p n }
{
    number_place(p, n) < p.numbercount as usize
}

#[tactic(auto, unfolding(crate::specs::Judge::served_invalid))]
pub(crate) fn served_invalid(p: Profile, r: Request) -> bool
    ensures { result ≡ served_invalid p r }
{
    if p.msn == 0 {
        return false;
    }
    if r.served.all == 1 {
        return !has_all_numbers(p);
    }
    !is_served(p, r.served.number)
}

// Whether a service is one of the profile's.
fn is_provided(p: Profile, service: u8) -> bool
    ensures { result ≡ is_provided p service }
{
    service_slot(p, service) < p.servicecount as usize
}

#[tactic(auto, unfolding(crate::specs::Judge::not_provided))]
pub(crate) fn not_provided(p: Profile, r: Request) -> bool
    ensures { result ≡ not_provided p r }
{
    r.service != 0 && !is_provided(p, r.service)
}

#[tactic(auto, unfolding(crate::specs::Judge::other_kind))]
pub(crate) fn other_kind(n: Number) -> bool
    ensures { result ≡ other_kind n }
{
    n.form == OTHER || (n.form == PUBLIC && n.kind == INTERNATIONAL && INTERNATIONALMOST < n.count)
}

// Whether a number of the profile that was asked for is the one forwarded to.
pub(crate) fn selected_same(p: Profile, asked: u8, to: Number) -> bool
    ensures { result ≡ selected_same p asked to 0 (served_numbers p) }
{
    let numbers = p.numbers;
    let numbers = &numbers[..stored(p.numbercount, NUMBERS)];
    for (k, n) in numbers.iter().enumerate() {
        if is_named(EVERYNUMBER, asked, k as u8) && same(p, *n, to) {
            return true;
        }
    }
    false
}
