// A profile, and whether it breaks a rule (document 01, "Profile and table").
ghost use Rattle.std.specs.Prelude.{◌≡◌, length};
ghost use Rattle.profile.specs.Profile.{same_digits, same_number, prefix_good, numbers_good, services_good, subscriptions_good, uses_good, diversion_good, prefixes_good, profile_good, Same, NumberPlace, ServiceSlot};

use codes::service_code;
use numbers::{MOST, Number, number_good};

// The most numbers, services and prefixes of a profile.
pub const NUMBERS: usize = 4;

pub const SERVICES: usize = 6;

pub const PREFIXES: usize = 16;

// A special prefix: `count` digits as characters.
#[repr(C)]
#[derive(Clone, Copy)]
pub struct Prefix {
    pub count: u8,
    pub digits: [u8; MOST],
}

// What the carrier has agreed with the subscriber. Places past a count carry no meaning; the fields from `subscribed` to `release`
// are 0 or 1, but for `option`. The arrays are counted, since nothing is on the heap; the flags are octets and no `bool`, since
// `profile_from` has the record as it stands, and `profile_good` judges it.
#[repr(C)]
#[derive(Clone, Copy)]
pub struct Profile {
    pub numbercount: u8,
    pub numbers: [Number; NUMBERS],
    pub servicecount: u8,
    pub services: [u8; SERVICES],
    pub subscribed: [u8; 3],
    pub msn: u8,
    pub all: u8,
    pub inuse: u8,
    pub counted: u8,
    pub option: u8,
    pub release: u8,
    pub limit: u8,
    pub prefixcount: u8,
    pub prefixes: [Prefix; PREFIXES],
}

// From the last digit, since the numbers of an access differ at their ends: by `==`, `number_place` takes 406 instructions, not 273.
fn same_digits(a: &[u8], b: &[u8]) -> bool
    requires { length a.now ≡ length b.now }
    ensures { result ≡ same_digits a.now b.now }
{
    a.iter().rev().zip(b.iter().rev()).all(|(x, y)| x == y)
}

// Whether form, type and digits agree.
#[tactic(auto, using(laws::proofs::Cases::cases, laws::proofs::Picks::pick_last), unfolding(crate::specs::Profile::same_number))]
fn same_number(a: Number, b: Number) -> bool
    ensures { result ≡ same_number a b }
{
    let count = usize::from(a.count).min(MOST);
    a.form == b.form
        && a.kind == b.kind
        && a.count == b.count
        && same_digits(&a.digits[..count], &b.digits[..count])
}

// Whether an access takes two numbers for the same.
#[tactic(auto, unfolding(crate::specs::Profile::same))]
pub fn same(p: Profile, a: Number, b: Number) -> bool
    ensures { Same p a b result }
{
    same_number(a, b)
}

// The place of the first served number that is the same; how many there are where none is.
pub fn number_place(p: Profile, n: Number) -> usize
    ensures { NumberPlace p n result }
{
    let count = usize::from(p.numbercount).min(NUMBERS);
    p.numbers[..count]
        .iter()
        .position(|x| same(p, *x, n))
        .unwrap_or(count)
}

// The place of the service among those of the profile; how many there are where it is none of them.
pub fn service_slot(p: Profile, service: u8) -> usize
    ensures { ServiceSlot p service result }
{
    let count = usize::from(p.servicecount).min(SERVICES);
    p.services[..count]
        .iter()
        .position(|x| *x == service)
        .unwrap_or(count)
}

// The numbers are copied out of the profile, as the services are below: lent by `p`, a record takes 1,001 instructions to read, not 853.
#[tactic(auto, using(laws::proofs::Cases::cases), unfolding(crate::specs::Profile::numbers_good))]
fn numbers_good(p: Profile) -> bool
    ensures { result ≡ numbers_good p }
{
    let count = usize::from(p.numbercount);
    let numbers = p.numbers;
    if count < 1 || NUMBERS < count {
        return false;
    }
    let served = &numbers[..count];
    for (k, n) in served.iter().enumerate() {
        if !number_good(*n) || (0..k).any(|j| same(p, served[j], *n)) {
            return false;
        }
    }
    true
}

#[tactic(auto, using(laws::proofs::Cases::cases), unfolding(crate::specs::Profile::services_good))]
fn services_good(p: Profile) -> bool
    ensures { result ≡ services_good p }
{
    let count = usize::from(p.servicecount);
    let services = p.services;
    if count < 1 || SERVICES < count {
        return false;
    }
    let mut below = 0;
    for code in &services[..count] {
        if *code <= below || !service_code(*code) {
            return false;
        }
        below = *code;
    }
    true
}

#[tactic(auto, unfolding(crate::specs::Profile::prefix_good))]
fn prefix_good(f: Prefix) -> bool
    ensures { result ≡ prefix_good f }
{
    let digits = f.digits;
    number_good(Number {
        form: 0,
        kind: 0,
        count: f.count,
        digits,
    })
}

// Most profiles have no prefix, and then the array is not copied. As one chain over `p`, a record takes 963 instructions to read, not 853.
fn prefixes_good(p: Profile) -> bool
    ensures { result ≡ prefixes_good p }
{
    let count = usize::from(p.prefixcount);
    if count == 0 {
        return true;
    }
    if PREFIXES < count {
        return false;
    }
    let prefixes = p.prefixes;
    prefixes[..count].iter().all(|f| prefix_good(*f))
}

fn subscriptions_good(p: Profile) -> bool
    ensures { result ≡ subscriptions_good p }
{
    p.subscribed.iter().all(|flag| *flag <= 1)
}

#[tactic(auto, using(laws::proofs::Cases::cases, laws::proofs::Picks::pick_last), unfolding(crate::specs::Profile::uses_good))]
fn uses_good(p: Profile) -> bool
    ensures { result ≡ uses_good p }
{
    p.all <= 1 && p.inuse <= 1 && p.counted <= 1 && p.msn <= 1 && (p.msn == 1 || p.numbercount == 1)
}

#[tactic(auto, using(laws::proofs::Cases::cases, laws::proofs::Picks::pick_last), unfolding(crate::specs::Profile::diversion_good))]
fn diversion_good(p: Profile) -> bool
    ensures { result ≡ diversion_good p }
{
    p.option <= 2 && p.release <= 1 && 1 <= p.limit && p.limit <= 5
}

// Whether a profile breaks no rule.
#[tactic(auto, using(laws::proofs::Cases::cases, laws::proofs::Picks::pick_last), unfolding(crate::specs::Profile::profile_good))]
pub(crate) fn profile_good(p: Profile) -> bool
    ensures { result ≡ profile_good p }
{
    numbers_good(p)
        && services_good(p)
        && subscriptions_good(p)
        && uses_good(p)
        && diversion_good(p)
        && prefixes_good(p)
}
