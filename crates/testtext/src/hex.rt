// Octets in hexadecimal, with upper-case letters.
ghost use Rattle.std.specs.Prelude.{◌≡◌};
ghost use Rattle.testtext.specs.Hex.{hex_digit, OctetOf, HexCharacter};

// What a hexadecimal digit stands for; 0 for any other character. No `char::to_digit`, which takes lower case too.
#[tactic(auto, unfolding(crate::specs::Hex::hex_digit), using(laws::proofs::Cases::cases))]
pub(crate) fn hex_digit(c: u8) -> u8
    ensures { result ≡ hex_digit c }
{
    match c {
        b'0'..=b'9' => c - b'0',
        b'A'..=b'F' => c - b'A' + 10,
        _ => 0,
    }
}

#[tactic(auto, using(crate::proofs::Hexes::hex_small))]
pub fn octet_of(high: u8, low: u8) -> u8
    ensures { OctetOf high low result }
{
    hex_digit(high) * 16 + hex_digit(low)
}

// The digit for `n % 16`. No `char::from_digit`, whose letters are of lower case.
#[tactic(auto, unfolding(crate::specs::Hex::hex_character), using(laws::proofs::Cases::cases))]
pub fn hex_character(n: u8) -> u8
    ensures { HexCharacter n result }
{
    let d = n % 16;
    if d < 10 { b'0' + d } else { b'A' + (d - 10) }
}
