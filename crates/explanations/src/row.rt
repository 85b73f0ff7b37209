// What a component is: a request, a reply, or the row of document 01's table at which reading stops.
ghost use Rattle.std.specs.Prelude.{◌≡◌};
ghost use Rattle.texts.specs.Pen.{Penned};
ghost use Rattle.explanations.specs.Explained.{reply_word, value_text, own_identifier, reply_of, reply_line, row_line, operation_no, is_operation, asked_text, said};

use crate::request::{ACTIVATIONNO, DEACTIVATIONNO, write_request};
use crate::word::write_signed;
use codes::INTERROGATION;
use octets::head_at;
use requests::{Heard, Operation, argument_at, hear};
use skip::{COMPONENTDEPTH, INSIDEDEPTH};
use texts::write_text;
use values::ident_at;

const INTERROGATIONNO: usize = INTERROGATION as usize;

#[tactic(auto, unfolding(crate::specs::Explained::reply_word))]
fn write_reply_word(out: &mut [u8], at: usize, tag: u8) -> usize
    ensures { Penned out.old at (reply_word tag) result out.new }
{
    if tag == 0xA2 {
        return write_text(out, at, b"result");
    }
    if tag == 0xA3 {
        return write_text(out, at, b"error");
    }
    write_text(out, at, b"reject")
}

// An error's value.
fn write_value(out: &mut [u8], p: usize, tag: u8, s: &[u8], at: usize, end: usize) -> usize
    ensures { Penned out.old p (value_text tag s.now at end) result out.new }
{
    if tag != 0xA3 {
        return p;
    }
    let Some(value) = ident_at(s, at, end, INSIDEDEPTH) else {
        return write_text(out, p, b", no value");
    };
    let q = write_text(out, p, b", value ");
    write_signed(value.value, out, q)
}

// A reply's identifier, and its value.
fn write_own(out: &mut [u8], p: usize, tag: u8, s: &[u8], at: usize, end: usize) -> usize
    ensures { Penned out.old p (own_identifier tag s.now at end) result out.new }
{
    let Some(identifier) = ident_at(s, at, end, INSIDEDEPTH) else {
        return write_text(out, p, b", no identifier");
    };
    let q = write_text(out, p, b", identifier ");
    let k = write_signed(identifier.value, out, q);
    write_value(out, k, tag, s, identifier.next, end)
}

// The reply that a component is.
fn write_reply(out: &mut [u8], p: usize, s: &[u8]) -> usize
    ensures { Penned out.old p (reply_of s.now) result out.new }
{
    let Some(component) = head_at(s, 0, s.len(), COMPONENTDEPTH) else {
        return p;
    };
    let q = write_reply_word(out, p, component.tag);
    write_own(out, q, component.tag, s, component.start, component.stop)
}

fn write_silent(out: &mut [u8], p: usize, s: &[u8]) -> usize
    ensures { Penned out.old p (reply_line s.now) result out.new }
{
    let q = write_text(out, p, b"row 2: ");
    let k = write_reply(out, q, s);
    write_text(out, k, b": answered by silence\n")
}

// A row's words, which end with an identifier.
fn write_row(out: &mut [u8], at: usize, words: &[u8], identifier: i16) -> usize
    ensures { Penned out.old at (row_line words.now identifier) result out.new }
{
    let p = write_text(out, at, words);
    let q = write_signed(identifier, out, p);
    write_text(out, q, b"\n")
}

// An operation's number; a negative one is none.
fn operation_no(value: i16) -> usize
    ensures { result ≡ operation_no value }
{
    usize::try_from(value).unwrap_or(0)
}

#[tactic(auto, unfolding(crate::specs::Explained::is_operation))]
fn is_operation(operation: usize) -> bool
    ensures { result ≡ is_operation operation }
{
    if operation == ACTIVATIONNO {
        return true;
    }
    if operation == DEACTIVATIONNO {
        return true;
    }
    operation == INTERROGATIONNO
}

fn write_asked(
    out: &mut [u8],
    p: usize,
    s: &[u8],
    identifier: i16,
    operation: Operation,
    at: usize,
    end: usize,
) -> usize
    ensures { Penned out.old p (asked_text s.now identifier operation at end) result out.new }
{
    let number = operation_no(operation.value);
    if !is_operation(number) {
        return write_row(
            out,
            p,
            b"row 7: operation not 7, 8, 11: answered, unless row 6 holds, by reject, invoke problem 1, identifier ",
            identifier,
        );
    }
    let Some(request) = argument_at(s, at, end, operation) else {
        return write_row(
            out,
            p,
            b"row 8: argument not as in clause 7.1: answered, unless row 6 holds, by reject, invoke problem 2, identifier ",
            identifier,
        );
    };
    write_request(out, p, identifier, number, request)
}

// What the component is.
pub(crate) fn write_said(out: &mut [u8], p: usize, s: &[u8]) -> usize
    ensures { Penned out.old p (said s.now) result out.new }
{
    match hear(s) {
        Heard::NotOne => write_text(
            out,
            p,
            b"row 1: not one element filling the input: answered by reject, general problem 2, identifier NULL\n",
        ),
        Heard::Silent => write_silent(out, p, s),
        Heard::OtherTag => write_text(
            out,
            p,
            b"row 3: an outer tag other than A1 to A4: answered by reject, general problem 0, identifier NULL\n",
        ),
        Heard::NoIdentifier => write_text(
            out,
            p,
            b"row 4: identifier unreadable: answered by reject, general problem 1, identifier NULL\n",
        ),
        Heard::NoOperation { identifier } => {
            write_row(
                out,
                p,
                b"row 5: operation unreadable: answered by reject, general problem 1, identifier ",
                identifier,
            )
        }
        Heard::Asks {
            identifier,
            operation,
            at,
            end,
        } => write_asked(out, p, s, identifier, operation, at, end),
    }
}
