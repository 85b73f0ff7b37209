// Prints the listing of the night sheet on its standard input, or `refused 9` (document 01, "Samples").
#![tactic(auto)]

mod input;

use input::read_full;
use listings::print_sheet;
use std::io;

// Room for the input. A sheet has at most 1,613 octets, so input that fills this is none, and `refused 9` follows by itself
// (crates/listings/proofs/Accepted.antt, `prints_long`).
const SPACE: usize = 2048;

// Room for the longest listing.
const LONGEST: usize = 1811;

fn main(rt: HostRuntime) -> io::Result<()> {
    let mut space = [0u8; SPACE];
    let n = read_full(&mut rt.stdin(), &mut space)?;
    let mut out = [0u8; LONGEST];
    let count = print_sheet(&space[..n], &mut out);
    rt.write_all(&out[..count])
}
