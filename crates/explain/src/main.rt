// Explains the components on its standard input, one to a line, in hexadecimal.
#![tactic(auto)]

mod hex;
mod input;

use explanations::explain;
use hex::octets_in;
use input::read_full;
use refusals::Refusal;
use std::io;

// Room for the input; more is said to be too much.
const SPACE: usize = 65536;

// Room for one octet more than a component may have: one that fills this is refused.
const COMPONENT: usize = 1025;

// Room for the longest explanation.
const LONGEST: usize = 30895;

fn main(rt: HostRuntime) -> io::Result<()> {
    let mut space = [0u8; SPACE];
    let n = read_full(&mut rt.stdin(), &mut space)?;
    if n == SPACE {
        return say(&rt, b"too much input\n");
    }
    each_line(&rt, &space[..n])
}

fn say(rt: &impl Print, text: &[u8]) -> io::Result<()> {
    rt.write_all(text)
}

// The first line is there even where the input is empty: the component without octets.
fn each_line(rt: &impl Print, s: &[u8]) -> io::Result<()> {
    let lines = s.strip_suffix(b"\n").unwrap_or(s);
    for line in lines.split(|c| *c == b'\n') {
        each(rt, line)?;
    }
    Ok(())
}

fn each(rt: &impl Print, line: &[u8]) -> io::Result<()> {
    let mut component = [0u8; COMPONENT];
    match octets_in(line, &mut component) {
        Some(count) => told(rt, &component[..count]),
        None => say(rt, b"not octets in hexadecimal\n"),
    }
}

fn told(rt: &impl Print, component: &[u8]) -> io::Result<()> {
    let mut out = [0u8; LONGEST];
    match explain(component, &mut out) {
        Ok(count) => say(rt, &out[..count]),
        Err(refusal) => refused(rt, refusal),
    }
}

fn refused(rt: &impl Print, refusal: Refusal) -> io::Result<()> {
    say(rt, b"refused ")?;
    rt.print(u8::from(refusal))?;
    say(rt, b"\n")
}
