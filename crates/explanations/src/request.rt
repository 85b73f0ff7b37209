// The words of a request.
ghost use Rattle.texts.specs.Pen.{Penned};
ghost use Rattle.explanations.specs.Text.{number_text, served_text, sub_word, to_text, operation_text, argument_text, request_line};

use crate::word::write_signed;
use codes::{ACTIVATION, DEACTIVATION};
use instances::stored;
use numbers::{Forwarded, MOST, Number, OTHER};
use requests::{Request, Served};
use texts::{write_decimal, write_kind, write_procedure, write_sub, write_text};

// The operations as the numbers that an operation's reader hands on.
pub(crate) const ACTIVATIONNO: usize = ACTIVATION as usize;

pub(crate) const DEACTIVATIONNO: usize = DEACTIVATION as usize;

fn write_number(out: &mut [u8], at: usize, number: Number) -> usize
    ensures { Penned out.old at (number_text number) result out.new }
{
    if number.form == OTHER {
        return write_text(out, at, b"a number of another kind");
    }
    let p = write_kind(out, at, number.form, number.kind);
    write_text(out, p, &number.digits[..stored(number.count, MOST)])
}

#[tactic(auto, unfolding(crate::specs::Text::served_text))]
fn write_served(out: &mut [u8], at: usize, served: Served) -> usize
    ensures { Penned out.old at (served_text served) result out.new }
{
    if served.all == 1 {
        return write_text(out, at, b"all numbers");
    }
    write_number(out, at, served.number)
}

// A forwarded-to address's subaddress.
fn write_subaddress(out: &mut [u8], at: usize, to: Forwarded) -> usize
    ensures { Penned out.old at (sub_word to) result out.new }
{
    if to.user == 1 {
        return write_text(out, at, b"user-specified");
    }
    let address = &to.address;
    write_sub(out, at, &address.sub[..stored(address.subcount, MOST)])
}

fn write_to(out: &mut [u8], at: usize, operation: usize, to: Forwarded) -> usize
    ensures { Penned out.old at (to_text operation to) result out.new }
{
    if operation != ACTIVATIONNO {
        return at;
    }
    let p = write_text(out, at, b" to ");
    let q = write_number(out, p, to.address.number);
    let k = write_text(out, q, b" ");
    write_subaddress(out, k, to)
}

#[tactic(auto, unfolding(crate::specs::Text::operation_text))]
fn write_operation(out: &mut [u8], at: usize, operation: usize) -> usize
    ensures { Penned out.old at (operation_text operation) result out.new }
{
    if operation == ACTIVATIONNO {
        return write_text(out, at, b"activation of ");
    }
    if operation == DEACTIVATIONNO {
        return write_text(out, at, b"deactivation of ");
    }
    write_text(out, at, b"interrogation of ")
}

fn write_argument(out: &mut [u8], at: usize, operation: usize, r: Request) -> usize
    ensures { Penned out.old at (argument_text operation r) result out.new }
{
    let p = write_procedure(out, at, r.procedure);
    let q = write_text(out, p, b"service ");
    let k = write_decimal(out, q, u32::from(r.service));
    let m = write_text(out, k, b" for ");
    let t = write_served(out, m, r.served);
    write_to(out, t, operation, r.to)
}

pub(crate) fn write_request(
    out: &mut [u8],
    at: usize,
    identifier: i16,
    operation: usize,
    r: Request,
) -> usize
    ensures { Penned out.old at (request_line identifier operation r) result out.new }
{
    let p = write_text(out, at, b"invoke ");
    let q = write_signed(identifier, out, p);
    let k = write_text(out, q, b": ");
    let m = write_operation(out, k, operation);
    let t = write_argument(out, m, operation, r);
    write_text(out, t, b"\n")
}
