// A night sheet is listed, or refused (document 01, "Samples", "Local refusals").
ghost use Rattle.texts.specs.Pen.{Penned};
ghost use Rattle.forms.specs.Form.{form1};
ghost use Rattle.listings.specs.Listing.{listing, ListsSheet, PrintsSheet};
ghost use Rattle.listings.specs.inner.Write.{sheet_of};

use crate::line::{write_header, write_lines};
use forms::read_form;
use instances::{ROOM, Run, stored};
use refusals::Refusal;
use texts::write_text;

// The most octets of a listing: 27 of its header, and at most 8 lines of each procedure, which have 74 for cfu, 74 for cfb and 75 for cfnr.
const LISTINGMOST: usize = 27 + 8 * (74 + 74 + 75);

// The listing of a sheet that holds this identifier and these instances.
fn write_listing(out: &mut [u8], last: u16, run: Run) -> usize
    ensures { Penned out.old 0 (listing form1 (sheet_of last run)) result out.new }
{
    let few = stored(run.count, ROOM);
    let p = write_header(out, last, few as u32);
    write_lines(out, p, &run.run[..few])
}

// The listing of a sheet at the start of the output, and how many octets that has.
pub fn list_sheet(s: &[u8], out: &mut [u8]) -> Result<usize, Refusal>
    ensures { ListsSheet s.now out.old result out.new }
{
    if out.len() < LISTINGMOST {
        return Err(Refusal::ShortOutput);
    }
    let Some(form) = read_form(s) else {
        return Err(Refusal::BadSheet);
    };
    let run = form.run;
    let count = write_listing(out, form.last, run);
    Ok(count)
}

// What the listing program prints, and how many octets that has; nothing where there is no room for the longest listing.
pub fn print_sheet(s: &[u8], out: &mut [u8]) -> usize
    ensures { PrintsSheet s.now out.old result out.new }
{
    if out.len() < LISTINGMOST {
        return 0;
    }
    let Some(form) = read_form(s) else {
        return write_text(out, 0, b"refused 9\n");
    };
    let run = form.run;
    write_listing(out, form.last, run)
}
