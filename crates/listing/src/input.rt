// The input. Each program has this file: a function that another crate can call must admit one answer (docs/ARCHITECTURE.md, "Rules that the
// gate checks"), and what a reader will give or where it fails is not known.
ghost use Rattle.std.specs.Prelude.{ℕ, List, ◌<◌, ◌≤◌, length, take, IfOk, IfErr};
ghost use Rattle.std.specs.Io.KnownBytes.{Consumes, IsAtEnd};

use std::io;
use std::io::Read;

// Reads until `out` is full or the input ends, and answers how many octets stand at the start of `out`. Where a read fails, that read took
// nothing, and those before it took no more than there is room for.
pub(crate) fn read_full<R: Read>(from: &mut R, out: &mut [u8]) -> io::Result<usize>
    ensures within { IfOk result (λ n. n ≤ length out.new) }
    ensures octets { IfOk result (λ n. Consumes (R.remaining from.old) (R.remaining from.new) (take n out.new)) }
    ensures failed { IfErr result (λ e. (read : List ℕ) × Consumes (R.remaining from.old) (R.remaining from.new) read × (length read ≤ length out.new)) }
    ensures end { IfOk result (λ n. n < length out.new → IsAtEnd (R.remaining from.new)) }
{
    let mut n = 0;
    // No `for`: each turn goes on by as many octets as a read gives.
    while n < out.len() {
        let more = from.read(&mut out[n..])?;
        if more == 0 {
            return Ok(n);
        }
        n += more;
    }
    Ok(n)
}
