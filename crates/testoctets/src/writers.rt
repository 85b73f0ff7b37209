// The writing cases: each is written between octets that must stay, and then into every smaller room.
use crate::say;
use std::io;
use testtext::{all_outside, find, last_identifier, last_number, octet_of};

// Room for what is written; where it is written, so that octets stand before it too; and what all octets hold beforehand.
const SIZE: usize = 16;

const AT: usize = 3;

const BEFORE: u8 = 0xAA;

// A case of writing, by its word; by any other word nothing is written.
pub(crate) fn written(rt: &impl Print, word: &[u8], line: &[u8]) -> io::Result<()> {
    let number = last_number(line);
    match word {
        b"write-head" => {
            let tag = tag_of(line);
            with_and_without_room(
                rt,
                |out| octets::put_head(out, AT, tag, (number % 65536) as u16),
            )
        }
        b"write-enumerated" => with_and_without_room(
            rt,
            |out| values::put_enumerated(out, AT, (number % 256) as u8),
        ),
        b"write-identifier" => {
            let identifier = last_identifier(line);
            with_and_without_room(rt, |out| values::put_ident(out, AT, identifier))
        }
        b"write-groups" => with_and_without_room(rt, |out| groups::put_groups(out, AT, number)),
        _ => with_and_without_room(rt, |_| AT),
    }
}

// Prints what `write` writes, and a mark for each smaller room: whether nothing was altered, and the answer is the place it began at.
fn with_and_without_room<W>(rt: &impl Print, write: W) -> io::Result<()>
where
    W: Fn(&mut [u8]) -> usize,
    requires { W.IsAlwaysCallable write }
{
    let mut out = [BEFORE; SIZE];
    let next = write(&mut out);
    let Some(written) = out.get(AT..next) else {
        return Ok(());
    };
    say::octets(rt, written)?;
    rt.write_all(b" room ")?;
    for size in AT..next {
        let mut out = [BEFORE; SIZE];
        let next = write(&mut out[..size]);
        say::mark(rt, next == AT && all_outside(&out, 0, 0, BEFORE))?;
    }
    if !all_outside(&out, AT, next, BEFORE) {
        rt.write_all(b"!")?;
    }
    Ok(())
}

// The octet of the word after the first.
fn tag_of(line: &[u8]) -> u8 {
    match &line[find(line, 0, b' ')..] {
        [_, high, low, ..] => octet_of(*high, *low),
        _ => 0,
    }
}
