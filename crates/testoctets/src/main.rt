// Reads cases of octets from standard input, one to a line, and prints what the library answers to each. What it must answer
// stands in the file stdout, worked out from document 01 without this library; docs/ARCHITECTURE.md says how a line is built.
#![tactic(auto)]

mod input;
mod readers;
mod say;
mod writers;

use std::io;
use testtext::{find, octets_from};

// Room for all cases; more is said to be too much.
const SPACE: usize = 32768;

fn main(rt: HostRuntime) -> io::Result<()> {
    let mut space = [0u8; SPACE];
    let n = input::read_full(&mut rt.stdin(), &mut space)?;
    if n == SPACE {
        return rt.write_all(b"too many cases\n");
    }
    each_line(&rt, &space[..n])
}

fn each_line(rt: &impl Print, s: &[u8]) -> io::Result<()> {
    if s.is_empty() {
        return Ok(());
    }
    let lines = s.strip_suffix(b"\n").unwrap_or(s);
    for line in lines.split(|c| *c == b'\n') {
        case(rt, line)?;
        rt.write_all(b"\n")?;
    }
    Ok(())
}

fn case(rt: &impl Print, line: &[u8]) -> io::Result<()> {
    let end = find(line, 0, b' ');
    let mut space = [0u8; 512];
    let n = octets_from(line, end, &mut space);
    let s = &space[..n];
    match &line[..end] {
        b"element" => readers::element(rt, s),
        b"enumerated" => readers::enumerated(rt, s),
        b"identifier" => readers::identifier(rt, s),
        b"skip" => readers::skipped(rt, s),
        b"groups" => readers::groups(rt, s),
        word => writers::written(rt, word, line),
    }
}
