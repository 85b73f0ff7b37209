// What is printed.
use std::io;
use testtext::{hex_character, without_sign};

// An octet in hexadecimal; no `{:02X}`, since `hex_character` is what is promised here (docs/PROMISES.md).
pub(crate) fn octet(rt: &impl Print, b: u8) -> io::Result<()> {
    rt.write_all(&[hex_character(b / 16), hex_character(b)])
}

// Octets in hexadecimal, separated by spaces.
pub(crate) fn octets(rt: &impl Print, s: &[u8]) -> io::Result<()> {
    for (i, b) in s.iter().enumerate() {
        if 0 < i {
            rt.write_all(b" ")?;
        }
        octet(rt, *b)?;
    }
    Ok(())
}

// A number with its sign; no `{}`, since `without_sign` is what is promised here.
pub(crate) fn signed(rt: &impl Print, v: i16) -> io::Result<()> {
    if v < 0 {
        rt.write_all(b"-")?;
    }
    rt.print(without_sign(v))
}

// The word before a place, and the place: each is written by itself, so that what stands in an output that takes no more is known.
pub(crate) fn place(rt: &impl Print, word: &[u8], at: usize) -> io::Result<()> {
    rt.write_all(word)?;
    rt.print(at)
}

// A mark: `.` for what is right, `!` for what is not.
pub(crate) fn mark(rt: &impl Print, right: bool) -> io::Result<()> {
    rt.write_all(if right { b"." } else { b"!" })
}
