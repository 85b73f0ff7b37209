// The reading cases: each is read whole, and then cut at every octet.
use crate::say;
use octets::{Found, Head};
use std::io;

// Prints what is read of `s`, or the word for what is not, and a mark for each cut: whether it is read too.
fn whole_and_cut<T, R, S>(
    rt: &impl Print,
    s: &[u8],
    read: R,
    tell: S,
    wrong: &[u8],
) -> io::Result<()>
where
    T: Drop,
    R: Fn(&[u8]) -> Option<T>,
    S: Fn(T) -> io::Result<()>,
    requires reads { R.IsAlwaysCallable read }
    requires tells { S.IsAlwaysCallable tell }
{
    match read(s) {
        Some(value) => tell(value)?,
        None => rt.write_all(wrong)?,
    }
    rt.write_all(b" cuts")?;
    if !s.is_empty() {
        rt.write_all(b" ")?;
    }
    for cut in 0..s.len() {
        let mark = if read(&s[..cut]).is_some() {
            b"+"
        } else {
            b"."
        };
        rt.write_all(mark)?;
    }
    Ok(())
}

pub(crate) fn element(rt: &impl Print, s: &[u8]) -> io::Result<()> {
    let tell = |head: Head| {
        rt.write_all(b"tag ")?;
        say::octet(rt, head.tag)?;
        say::place(rt, b" contents ", head.start)?;
        say::place(rt, b" ", head.stop)?;
        say::place(rt, b" next ", head.next)
    };
    whole_and_cut(rt, s, head_of, tell, b"bad")
}

fn head_of(s: &[u8]) -> Option<Head> {
    octets::head_at(s, 0, s.len(), 1)
}

pub(crate) fn enumerated(rt: &impl Print, s: &[u8]) -> io::Result<()> {
    let tell = |found: Found<u8>| {
        say::place(rt, b"is ", usize::from(found.value))?;
        say::place(rt, b" next ", found.next)
    };
    whole_and_cut(rt, s, enumerated_of, tell, b"unreadable")
}

fn enumerated_of(s: &[u8]) -> Option<Found<u8>> {
    values::enumerated_at(s, 0, s.len(), 1)
}

pub(crate) fn identifier(rt: &impl Print, s: &[u8]) -> io::Result<()> {
    let tell = |found: Found<i16>| {
        rt.write_all(b"is ")?;
        say::signed(rt, found.value)?;
        say::place(rt, b" next ", found.next)
    };
    whole_and_cut(rt, s, identifier_of, tell, b"unreadable")
}

fn identifier_of(s: &[u8]) -> Option<Found<i16>> {
    values::ident_at(s, 0, s.len(), 1)
}

pub(crate) fn skipped(rt: &impl Print, s: &[u8]) -> io::Result<()> {
    whole_and_cut(
        rt,
        s,
        after_element,
        |next| say::place(rt, b"to ", next),
        b"wrong",
    )
}

fn after_element(s: &[u8]) -> Option<usize> {
    skip::skip_at(s, 0, s.len())
}

pub(crate) fn groups(rt: &impl Print, s: &[u8]) -> io::Result<()> {
    let tell = |found: Found<Option<u32>>| match found.value {
        Some(value) => {
            say::place(rt, b"is ", value as usize)?;
            say::place(rt, b" next ", found.next)
        }
        None => say::place(rt, b"large next ", found.next),
    };
    whole_and_cut(rt, s, groups_of, tell, b"bad")
}

fn groups_of(s: &[u8]) -> Option<Found<Option<u32>>> {
    groups::groups_at(s, 0, s.len())
}
