// The fields of a night sheet: numbers in groups of seven bits, each within its bound (document 01, "Night sheet").
ghost use Rattle.std.specs.Prelude.{◌≡◌, ◌+◌, ◌≤◌};
ghost use Rattle.octets.specs.Found.{found};
ghost use Rattle.numbers.specs.Number.{most};
ghost use Rattle.forms.specs.inner.Reading.{any_field, field_below, fields_below, got_as, octets_on};

use groups::groups_at;
use numbers::MOST;
use octets::Found;

// The field at `at`. A number that 32 bits do not hold is past every bound.
#[tactic(auto, using(laws::proofs::Cases::cases), unfolding(crate::specs::Instance::field_at))]
pub(crate) fn field_at(s: &[u8], at: usize) -> Option<Found<u32>>
    ensures { result ≡ found (any_field s.now at) }
{
    let group = groups_at(s, at, s.len())?;
    let value = group.value?;
    Some(Found {
        value,
        next: group.next,
    })
}

// The field at `at`, if it is below a bound.
pub(crate) fn field_below(s: &[u8], at: usize, below: u32) -> Option<Found<u32>>
    ensures { result ≡ found (field_below below s.now at) }
{
    let field = field_at(s, at)?;
    if below <= field.value {
        return None;
    }
    Some(field)
}

// `count` fields below a bound, each kept with `base` on top, as octets with zeros after them.
pub(crate) fn fields_below(
    s: &[u8],
    at: usize,
    count: usize,
    below: u32,
    base: u32,
) -> Option<Found<[u8; MOST]>>
    requires { (count ≤ most) × (base + below ≤ 256) }
    ensures { result ≡ found (got_as (octets_on base) (fields_below below count s.now at)) }
{
    let mut octets = [0u8; MOST];
    let mut here = at;
    for i in 0..count {
        let field = field_below(s, here, below)?;
        octets[i] = (base + field.value) as u8;
        here = field.next;
    }
    Some(Found {
        value: octets,
        next: here,
    })
}
