// The octets that the words of a line are, two digits in hexadecimal each, with a space before.
ghost use Rattle.testtext.specs.Words.{OctetsFrom};

use crate::hex::octet_of;

// Puts the octets of the words from `at` on at the start of `out`, as many as it has room for, and answers how many there are.
pub fn octets_from(s: &[u8], at: usize, out: &mut [u8]) -> usize
    ensures { OctetsFrom s.now at out.old result out.new }
{
    let words = s.len().saturating_sub(at) / 3;
    let count = words.min(out.len());
    // By an index: a proof knows nothing of what `out` holds after its `iter_mut` with `chunks_exact`.
    for n in 0..count {
        let i = at + 3 * n;
        out[n] = octet_of(s[i + 1], s[i + 2]);
    }
    count
}
