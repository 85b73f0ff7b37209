// Octets in hexadecimal: two digits of either case each, with blanks between them or without.
ghost use Rattle.std.specs.Prelude.{◌≤◌, length, IfSome};

fn is_blank(c: u8) -> bool {
    matches!(c, b' ' | b'\t' | b'\r')
}

// What stands in `s` from the first character on that is no blank.
fn past_blanks(s: &[u8]) -> &[u8]
    ensures { length result.now ≤ length s.now }
{
    let blanks = s.iter().position(|c| !is_blank(*c)).unwrap_or(s.len());
    &s[blanks..]
}

// The octet of two digits.
fn octet_of(high: u8, low: u8) -> Option<u8> {
    let high = char::from(high).to_digit(16)?;
    let low = char::from(low).to_digit(16)?;
    Some((high * 16 + low) as u8)
}

// Puts the octets that `s` names at the start of the output, and answers how many were read, all or as many as there is room for; `None`
// where the text is none.
pub(crate) fn octets_in(s: &[u8], out: &mut [u8]) -> Option<usize>
    ensures { IfSome result (λ count. count ≤ length out.new) }
{
    let mut count = 0;
    let mut rest = past_blanks(s);
    while let [high, low, more @ ..] = rest {
        let octet = octet_of(*high, *low)?;
        if out.len() <= count {
            return Some(count);
        }
        out[count] = octet;
        count += 1;
        rest = past_blanks(more);
    }
    if rest.is_empty() { Some(count) } else { None }
}
