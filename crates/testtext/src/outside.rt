// Octets that must stay as they were.
ghost use Rattle.std.specs.Prelude.{◌≡◌};
ghost use Rattle.testtext.specs.Outside.{octet_passes, AllOutside};

// Whether `x`, at the place `i`, is `octet` or stands from `from` up to `to`.
#[tactic(auto, unfolding(crate::specs::Outside::octet_passes), using(laws::proofs::Cases::cases))]
fn octet_passes(i: usize, x: u8, from: usize, to: usize, octet: u8) -> bool
    ensures { result ≡ octet_passes i x from to octet }
{
    (from..to).contains(&i) || x == octet
}

// Whether every octet of `s` but those from `from` up to `to` is `octet`.
pub fn all_outside(s: &[u8], from: usize, to: usize, octet: u8) -> bool
    ensures { AllOutside s.now from to octet result }
{
    s.iter()
        .enumerate()
        .all(|(i, x)| octet_passes(i, *x, from, to, octet))
}
