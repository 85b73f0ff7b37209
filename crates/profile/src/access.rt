// The access record is read into a profile (docs/RECORDS.md).
ghost use Rattle.std.specs.Prelude.{◌≡◌, ◌+◌, ◌≤◌, length};
ghost use Rattle.std.proofs.Math.Seq.{slice};
ghost use Rattle.numbers.specs.Number.{most};
ghost use Rattle.profile.specs.Access.{number_size, prefix_size, access_size, number_from, prefix_from, profile_from, ReadAccess};

use crate::profile::{NUMBERS, PREFIXES, Prefix, Profile, SERVICES, profile_good};
use numbers::{MOST, Number};
use octets::put_all;
use std::array;

// Where the fields of the record stand, and their sizes.
pub const NUMBERSAT: usize = 1;

pub const NUMBERSIZE: usize = 23;

const SERVICESAT: usize = 94;

const SUBSCRIBEDAT: usize = 100;

const FLAGSAT: usize = 103;

const PREFIXESAT: usize = 111;

const PREFIXSIZE: usize = 21;

const ACCESSSIZE: usize = 447;

// The twenty places for digits from `at` on. So a record takes 854 instructions to read; by `copy_from_slice` 1,837, by `first_chunk` 996.
fn digits_from(s: &[u8], at: usize) -> [u8; MOST]
    requires { at + most ≤ length s.now }
    ensures { result ≡ slice at (at + most) s.now }
{
    let mut digits = [0u8; MOST];
    put_all(&mut digits, 0, &s[at..at + MOST]);
    digits
}

// The number whose record stands at `at`.
#[tactic(auto, unfolding(crate::specs::Access::number_from))]
fn number_from(s: &[u8], at: usize) -> Number
    requires { at + number_size ≤ length s.now }
    ensures { result ≡ number_from s.now at }
{
    let digits = digits_from(s, at + 3);
    Number {
        form: s[at],
        kind: s[at + 1],
        count: s[at + 2],
        digits,
    }
}

// The prefix whose record stands at `at`.
#[tactic(auto, unfolding(crate::specs::Access::prefix_from))]
fn prefix_from(s: &[u8], at: usize) -> Prefix
    requires { at + prefix_size ≤ length s.now }
    ensures { result ≡ prefix_from s.now at }
{
    let digits = digits_from(s, at + 1);
    Prefix {
        count: s[at],
        digits,
    }
}

// The profile as its record stands. `services` and `subscribed` are spelled: by `from_fn` a record takes 898 instructions to read, not 854.
fn profile_from(s: &[u8]) -> Profile
    requires { length s.now ≡ access_size }
    ensures { result ≡ profile_from s.now }
{
    let numbers = array::from_fn(|k| number_from(s, NUMBERSAT + NUMBERSIZE * k));
    let prefixes = array::from_fn(|k| prefix_from(s, PREFIXESAT + PREFIXSIZE * k));
    Profile {
        numbercount: s[0],
        numbers,
        servicecount: s[SERVICESAT - 1],
        services: [
            s[SERVICESAT],
            s[SERVICESAT + 1],
            s[SERVICESAT + 2],
            s[SERVICESAT + 3],
            s[SERVICESAT + 4],
            s[SERVICESAT + 5],
        ],
        subscribed: [s[SUBSCRIBEDAT], s[SUBSCRIBEDAT + 1], s[SUBSCRIBEDAT + 2]],
        msn: s[FLAGSAT],
        all: s[FLAGSAT + 1],
        inuse: s[FLAGSAT + 2],
        counted: s[FLAGSAT + 3],
        option: s[FLAGSAT + 4],
        release: s[FLAGSAT + 5],
        limit: s[FLAGSAT + 6],
        prefixcount: s[FLAGSAT + 7],
        prefixes,
    }
}

// The profile of an access record; None where the record breaks a rule, refusal 3.
#[tactic(auto, unfolding(crate::specs::Access::access_read))]
pub fn read_access(access: &[u8]) -> Option<Profile>
    ensures { ReadAccess access.now result }
{
    if access.len() != ACCESSSIZE {
        return None;
    }
    let profile = profile_from(access);
    if !profile_good(profile) {
        return None;
    }
    Some(profile)
}
