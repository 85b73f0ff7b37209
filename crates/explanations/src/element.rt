// The elements of a component, a line each.
ghost use Rattle.std.specs.Prelude.{◌≡◌, ◌+◌, ◌≤◌, ◌<◌, length};
ghost use Rattle.texts.specs.Pen.{Penned};
ghost use Rattle.explanations.specs.Elements.{indent, contents_text, element_line, unread_line, element_lines, lines_in};

use octets::{Head, head_at};
use skip::COMPONENTDEPTH;
use texts::{write_hex, write_text};

// Where the text of an element ends, and where what follows it begins.
#[derive(Clone, Copy)]
struct Line {
    place: usize,
    next: usize,
}

// Two blanks for each element around one that may go `depth` deep.
fn write_indent(out: &mut [u8], at: usize, depth: u8) -> usize
    ensures { Penned out.old at (indent depth) result out.new }
{
    let mut p = at;
    for _ in depth..COMPONENTDEPTH {
        p = write_text(out, p, b"  ");
    }
    p
}

fn write_contents(out: &mut [u8], p: usize, tag: u8, s: &[u8], start: usize, stop: usize) -> usize
    requires { (start ≤ stop) × (stop ≤ length s.now) }
    ensures { Penned out.old p (contents_text tag s.now start stop) result out.new }
{
    if tag / 32 % 2 != 0 {
        return p;
    }
    if start == stop {
        return p;
    }
    let q = write_text(out, p, b" contents ");
    write_hex(out, q, &s[start..stop])
}

// The line of the element at `at`, whose contents stand from `start` up to `stop`.
fn write_line(
    out: &mut [u8],
    p: usize,
    depth: u8,
    tag: u8,
    s: &[u8],
    at: usize,
    start: usize,
    stop: usize,
) -> usize
    requires { (at + 1 < start) × (start ≤ stop) × (stop ≤ length s.now) }
    ensures { Penned out.old p (element_line depth tag s.now at start stop) result out.new }
{
    let q = write_indent(out, p, depth);
    let k = write_text(out, q, b"tag ");
    let m = write_hex(out, k, &s[at..at + 1]);
    let t = write_text(out, m, b" length ");
    let u = write_hex(out, t, &s[at + 1..start]);
    let v = write_contents(out, u, tag, s, start, stop);
    write_text(out, v, b"\n")
}

fn write_unread(out: &mut [u8], p: usize, depth: u8, s: &[u8], at: usize, end: usize) -> usize
    requires { (at ≤ end) × (end ≤ length s.now) }
    ensures { Penned out.old p (unread_line depth s.now at end) result out.new }
{
    let q = write_indent(out, p, depth);
    let k = write_text(out, q, b"unread ");
    let m = write_hex(out, k, &s[at..end]);
    write_text(out, m, b"\n")
}

// The lines of the element at `at`, and of those in it: the two functions call each other, and the depth left falls.
#[cycle(write_element_write_elements)]
fn write_element(depth: u8, out: &mut [u8], p: usize, s: &[u8], at: usize, end: usize) -> Line
    requires { (at < end) × (end ≤ length s.now) }
    ensures { (result.next ≡ (element_lines depth s.now at end).next)
        × Penned out.old p (element_lines depth s.now at end).text result.place out.new }
{
    let Some(
        Head {
            tag,
            start,
            stop,
            next,
        },
    ) = head_at(s, at, end, depth)
    else {
        let place = write_unread(out, p, depth, s, at, end);
        return Line { place, next: end };
    };
    let q = write_line(out, p, depth, tag, s, at, start, stop);
    if tag / 32 % 2 == 0 {
        return Line { place: q, next };
    }
    let place = write_elements(depth - 1, out, q, s, start, stop);
    Line { place, next }
}

// The lines of the elements from `at` up to `end`. Siblings are a loop, so that the stack is bounded by the depth.
#[cycle(write_element_write_elements)]
pub(crate) fn write_elements(
    depth: u8,
    out: &mut [u8],
    p: usize,
    s: &[u8],
    at: usize,
    end: usize,
) -> usize
    requires { end ≤ length s.now }
    ensures { Penned out.old p (lines_in depth s.now at end) result out.new }
{
    let mut place = p;
    let mut here = at;
    // No index is counted: where the next element begins, the one before it says.
    while here < end {
        let line = write_element(depth, out, place, s, here, end);
        place = line.place;
        here = line.next;
    }
    place
}
