// Octets in hexadecimal, with lower-case letters.
ghost use Rattle.texts.specs.Word.{hex_of, HexOf};
ghost use Rattle.texts.specs.Pen.{WritesHex, WritesSub};

use crate::pen::{pen, write_text};

// The digit for `n % 16`.
#[tactic(auto, unfolding(crate::specs::Word::hex_of))]
pub fn hex_of(n: u8) -> u8
    ensures { HexOf n result }
{
    let d = n % 16;
    if d < 10 { b'0' + d } else { b'a' - 10 + d }
}

// Each octet in two digits. All whose digits both fit are written without a test of their own, and then the first digit of the next one:
// with a test for each digit the longest listing takes 70,313 instructions, over its bound of 68,000.
pub fn write_hex(out: &mut [u8], at: usize, octets: &[u8]) -> usize
    ensures { WritesHex out.old at octets.now result out.new }
{
    let room = out.len().saturating_sub(at);
    let whole = octets.len().min(room / 2);
    let mut p = at;
    for octet in &octets[..whole] {
        out[p] = hex_of(octet / 16);
        out[p + 1] = hex_of(*octet);
        p += 2;
    }
    if whole == octets.len() {
        return p;
    }
    pen(out, p, hex_of(octets[whole] / 16))
}

// A subaddress.
#[tactic(auto, using(crate::proofs::Words::sub_none, crate::proofs::Words::sub_all))]
pub fn write_sub(out: &mut [u8], at: usize, octets: &[u8]) -> usize
    ensures { WritesSub out.old at octets.now result out.new }
{
    if octets.is_empty() {
        return write_text(out, at, b"-");
    }
    write_hex(out, at, octets)
}
