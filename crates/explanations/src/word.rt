// A number with its sign as a word of a text.
ghost use Rattle.texts.specs.Pen.{Penned};
ghost use Rattle.explanations.specs.Text.{signed_text};

use texts::{write_decimal, write_text};

pub(crate) fn write_signed(v: i16, out: &mut [u8], at: usize) -> usize
    ensures { Penned out.old at (signed_text v) result out.new }
{
    let size = u32::from(v.unsigned_abs());
    if v < 0 {
        let p = write_text(out, at, b"-");
        return write_decimal(out, p, size);
    }
    write_decimal(out, at, size)
}
