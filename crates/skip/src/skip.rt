// Elements are skipped to a depth: the two functions call each other, and the depth left falls (document 01, "Reading a component").
ghost use Rattle.std.specs.Prelude.{◌≡◌};
ghost use Rattle.skip.specs.Skip.{skip_element, SkipAt};
ghost use Rattle.skip.specs.inner.Skip.{skip_contents};

use octets::{Head, head_at};

// The deepest that a skipped element goes, the outermost being 1.
pub(crate) const SKIPDEPTH: u8 = 8;

// The place after the element at `at`, of the octets of `s` before `end`, which goes at most `depth` elements deep, itself counted.
#[cycle(skip_contents_skip_element)]
fn skip_element(s: &[u8], at: usize, end: usize, depth: u8) -> Option<usize>
    ensures { result ≡ skip_element depth s.now at end }
{
    let Head {
        tag,
        start,
        stop,
        next,
    } = head_at(s, at, end, depth)?;
    let passed = tag / 32 % 2 == 0 || skip_contents(s, start, stop, depth - 1);
    passed.then_some(next)
}

// Whether the octets from `at` up to `end` are elements that go at most `depth` deep. Siblings are a loop, so that the stack
// is bounded by the depth; each says where the next begins, so there is nothing that a `for` could count.
#[cycle(skip_contents_skip_element)]
fn skip_contents(s: &[u8], at: usize, end: usize, depth: u8) -> bool
    ensures { result ≡ skip_contents depth s.now at end }
{
    let mut here = at;
    while here < end {
        let Some(next) = skip_element(s, here, end, depth) else {
            return false;
        };
        here = next;
    }
    here == end
}

// The place after the element at `at`, of the octets of `s` before `end`, to the depth that document 01 allows.
pub fn skip_at(s: &[u8], at: usize, end: usize) -> Option<usize>
    ensures { SkipAt s.now at end result }
{
    skip_element(s, at, end, SKIPDEPTH)
}
