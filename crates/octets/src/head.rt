// Where an element's contents stand (document 01, "Reading a component").
ghost use Rattle.std.specs.Prelude.{◌≡◌, ◌+◌, ◌≤◌, length};
ghost use Rattle.octets.specs.Word.{word_at};
ghost use Rattle.octets.specs.Head.{span_of, length_at, HeadAt};
ghost use Rattle.octets.specs.Element.{length_most};

use crate::word::word_at;

// Where contents stand.
#[derive(Clone, Copy)]
struct Span {
    start: usize,
    stop: usize,
}

// An element: its tag, its contents from `start` up to `stop`, and `next`, where what follows it begins.
#[derive(Clone, Copy)]
pub struct Head {
    pub tag: u8,
    pub start: usize,
    pub stop: usize,
    pub next: usize,
}

// `n` octets from `start` on, if they end by `end`.
fn span_of(start: usize, n: usize, end: usize) -> Option<Span>
    requires { start ≤ end }
    ensures { result ≡ span_of start n end }
{
    if n <= end - start {
        Some(Span {
            start,
            stop: start + n,
        })
    } else {
        None
    }
}

// The contents whose length the `k` octets from `at` on say.
fn length_by(s: &[u8], at: usize, k: usize, end: usize) -> Option<Span>
    requires { (at ≤ end) × (end ≤ length s.now) × (k ≤ length_most) }
    ensures { result ≡ span_of (at + k) (word_at k s.now at) end }
{
    if end - at < k {
        return None;
    }
    let n = word_at(s, at, k);
    span_of(at + k, n, end)
}

// The contents whose length octets begin at `at`.
fn length_at(s: &[u8], at: usize, end: usize) -> Option<Span>
    requires { end ≤ length s.now }
    ensures { result ≡ length_at s.now at end }
{
    if end <= at {
        return None;
    }
    match s[at] {
        first @ 0..0x80 => span_of(at + 1, first as usize, end),
        0x81 => length_by(s, at + 1, 1, end),
        0x82 => length_by(s, at + 1, 2, end),
        _ => None,
    }
}

// The element at `at`, of the octets of `s` before `end`; `depth` says how many elements deep it may go, itself counted.
pub fn head_at(s: &[u8], at: usize, end: usize, depth: u8) -> Option<Head>
    ensures { HeadAt depth s.now at end result }
{
    if depth == 0 || s.len() < end || end <= at {
        return None;
    }
    let tag = s[at];
    if tag % 32 == 31 {
        return None;
    }
    let Span { start, stop } = length_at(s, at + 1, end)?;
    Some(Head {
        tag,
        start,
        stop,
        next: stop,
    })
}
