// A number, a procedure's name and the kind of a number as words of a text.
ghost use Rattle.texts.specs.Pen.{WritesDecimal, WritesProcedure, WritesKind};

use crate::pen::{pen, write_text};
use numbers::UNKNOWN;

// `n` in decimal digits; by hand, since nothing is known of output where `write!` answers an error, and no contract says that it does not.
pub fn write_decimal(out: &mut [u8], at: usize, n: u32) -> usize
    ensures { WritesDecimal out.old at n result out.new }
{
    if n < 10 {
        return pen(out, at, b'0' + n as u8);
    }
    let p = write_decimal(out, at, n / 10);
    pen(out, p, b'0' + (n % 10) as u8)
}

// A procedure's name, and a blank.
#[tactic(auto, using(crate::proofs::Words::name_cfu, crate::proofs::Words::name_cfb, crate::proofs::Words::name_cfnr))]
pub fn write_procedure(out: &mut [u8], at: usize, procedure: u8) -> usize
    ensures { WritesProcedure out.old at procedure result out.new }
{
    match procedure {
        0 => write_text(out, at, b"cfu "),
        1 => write_text(out, at, b"cfb "),
        _ => write_text(out, at, b"cfnr "),
    }
}

// A number's form and type, and a blank.
pub fn write_kind(out: &mut [u8], at: usize, form: u8, kind: u8) -> usize
    ensures { WritesKind out.old at form kind result out.new }
{
    if form == UNKNOWN {
        return write_text(out, at, b"u ");
    }
    let p = write_text(out, at, b"p");
    let q = write_decimal(out, p, u32::from(kind));
    write_text(out, q, b" ")
}
