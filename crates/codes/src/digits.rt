// What the octets of a number may be (document 01, "Numbers").
ghost use Rattle.codes.specs.Digits.{AllDigits, TypeGood};

fn only_digits(s: &[u8]) -> bool
    ensures { AllDigits s.now result }
{
    s.iter().all(|c| c.is_ascii_digit())
}

// Whether all octets of `s` are the characters 0 to 9; four at a time, since every number of a table is judged by it.
pub fn all_digits(s: &[u8]) -> bool
    ensures { AllDigits s.now result }
{
    let (fours, others) = s.as_chunks::<4>();
    fours.iter().all(|four| only_digits(four)) && only_digits(others)
}

// Whether a public number can have this type.
#[tactic(auto, using(laws::proofs::Cases::cases, laws::proofs::Picks::pick_last), unfolding(crate::specs::Digits::type_good))]
pub fn type_good(kind: u8) -> bool
    ensures { TypeGood kind result }
{
    kind <= 6 && kind != 5
}
