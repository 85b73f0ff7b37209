// Digits that begin with a special prefix (document 01, "Replies, in the order checked").
ghost use Rattle.std.specs.Prelude.{◌≡◌, take};
ghost use Rattle.numbers.specs.Number.{digits_of};
ghost use Rattle.profile.specs.Profile.{barred};
ghost use Rattle.rules.specs.Prefix.{begins, begins_any};

use instances::stored;
use numbers::{MOST, Number};
use profile::{PREFIXES, Prefix, Profile};

// Whether the digits of a number begin with a prefix.
fn begins_with(f: &Prefix, n: &Number) -> bool
    ensures { result ≡ begins (take f.now.count f.now.digits) (digits_of n.now) }
{
    let prefix = &f.digits[..stored(f.count, MOST)];
    let digits = &n.digits[..stored(n.count, MOST)];
    digits.starts_with(prefix)
}

// Whether they begin with one of the profile's. Most profiles have none, and then the array is not copied.
pub(crate) fn begins_any(p: Profile, n: Number) -> bool
    ensures { result ≡ begins_any (barred p) (digits_of n) }
{
    if p.prefixcount == 0 {
        return false;
    }
    let prefixes = p.prefixes;
    for f in &prefixes[..stored(p.prefixcount, PREFIXES)] {
        if begins_with(f, &n) {
            return true;
        }
    }
    false
}
