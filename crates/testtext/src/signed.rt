// Numbers with a sign.
ghost use Rattle.std.specs.Prelude.{◌≡◌};
ghost use Rattle.testtext.specs.Signed.{negated, LastIdentifier, WithoutSign};

use crate::line::{find, last_number};

// The number `n` with a minus before it.
#[tactic(auto, unfolding(crate::specs::Signed::negated), using(laws::proofs::Cases::cases))]
fn negated(n: u32) -> i16
    ensures { result ≡ negated n }
{
    match n {
        0 => 0,
        _ => -1 - ((n - 1) % 32768) as i16,
    }
}

// The number of the last word as an identifier, which it is negative for after " -".
#[tactic(auto, unfolding(crate::specs::Signed::signed_by), using(laws::proofs::Cases::cases))]
pub fn last_identifier(s: &[u8]) -> i16
    ensures { LastIdentifier s.now result }
{
    let n = last_number(s);
    match &s[find(s, 0, b' ')..] {
        [_, b'-', ..] => negated(n),
        [_, _, ..] => (n % 32768) as i16,
        _ => 0,
    }
}

// What is printed of a number after its sign.
#[tactic(auto, unfolding(crate::specs::Signed::unsigned))]
pub fn without_sign(v: i16) -> u32
    ensures { WithoutSign v result }
{
    u32::from(v.unsigned_abs())
}
