// The lines of a listing (document 01, "Samples").
ghost use Rattle.std.specs.Prelude.{◌≤◌};
ghost use Rattle.texts.specs.Word.{decimal, ended_by};
ghost use Rattle.texts.specs.Pen.{Penned};
ghost use Rattle.forms.specs.Form.{form1};
ghost use Rattle.listings.specs.Listing.{header_line, instance_line, instance_lines};

use instances::{Instance, stored};
use numbers::MOST;
use texts::{write_decimal, write_kind, write_procedure, write_sub, write_text};

// `n` in decimal digits, and a blank.
fn write_number(out: &mut [u8], at: usize, n: u32) -> usize
    ensures { Penned out.old at (ended_by (decimal n) 32) result out.new }
{
    // Most numbers of a listing have one digit, and need no call of `write_decimal`.
    if n < 10 {
        let p = write_text(out, at, &[b'0' + n as u8]);
        return write_text(out, p, b" ");
    }
    let p = write_decimal(out, at, n);
    write_text(out, p, b" ")
}

// The header at the start of the output.
pub(crate) fn write_header(out: &mut [u8], last: u16, count: u32) -> usize
    ensures { Penned out.old 0 (header_line form1.code last count) result out.new }
{
    let p = write_text(out, 0, b"form 1 last ");
    let q = write_number(out, p, u32::from(last));
    let k = write_text(out, q, b"count ");
    let m = write_decimal(out, k, count);
    write_text(out, m, b"\n")
}

fn write_line(out: &mut [u8], at: usize, i: Instance) -> usize
    ensures { Penned out.old at (instance_line i) result out.new }
{
    let address = &i.address;
    let number = &address.number;
    let p = write_procedure(out, at, i.procedure);
    let q = write_number(out, p, u32::from(i.number));
    let k = write_number(out, q, u32::from(i.service));
    let m = write_kind(out, k, number.form, number.kind);
    let t = write_text(out, m, &number.digits[..stored(number.count, MOST)]);
    let u = write_text(out, t, b" ");
    let v = write_sub(out, u, &address.sub[..stored(address.subcount, MOST)]);
    write_text(out, v, b"\n")
}

pub(crate) fn write_lines(out: &mut [u8], at: usize, instances: &[Instance]) -> usize
    ensures { Penned out.old at (instance_lines instances.now) result out.new }
{
    let mut p = at;
    for x in instances {
        p = write_line(out, p, *x);
    }
    p
}
