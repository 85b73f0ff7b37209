// The words of a line, separated by single spaces.
ghost use Rattle.std.specs.Prelude.{◌≡◌};
ghost use Rattle.testtext.specs.Line.{next_number, Find, LastNumber};

use crate::hex::hex_digit;

// The first place from `at` on that holds `wanted`, or the end of `s`.
pub fn find(s: &[u8], at: usize, wanted: u8) -> usize
    ensures { Find s.now at wanted result }
{
    match s.get(at..) {
        Some(rest) => {
            at + rest
                .iter()
                .position(|octet| *octet == wanted)
                .unwrap_or(rest.len())
        }
        None => at,
    }
}

// The number of a word that had the number `n` before the character `c`. No `parse`, which refuses a sign, and a number of more than 32 bits.
#[tactic(auto, unfolding(crate::specs::Line::next_number), using(laws::proofs::Cases::cases))]
fn next_number(n: u32, c: u8) -> u32
    ensures { result ≡ next_number n c }
{
    if c == b' ' {
        return 0;
    }
    n.wrapping_mul(10).wrapping_add(u32::from(hex_digit(c)))
}

// The number of the last word without its sign, if it is below 2 to the 32nd.
pub fn last_number(s: &[u8]) -> u32
    ensures { LastNumber s.now result }
{
    s.iter().fold(0, |n, c| next_number(n, *c))
}
