// Night sheets, as C has them written, read and listed.
ghost use Rattle.sconcetoad.specs.Sheets.{SheetWrittenBy, SheetTakenBy, SheetListedBy};

use crate::written::Octets;
use exchange::{Table, fresh_table};
use listings::list_sheet;
use sheets::{read_sheet, write_sheet};

// The number of the refusal, and the table that was read; a fresh one where the sheet is refused.
#[repr(C)]
#[derive(Clone, Copy)]
pub struct SheetTaken {
    pub refusal: u8,
    pub table: Table,
}

// `table` as a night sheet at the start of `out`.
#[unsafe(no_mangle)]
pub extern "C" fn sconcetoad_write_sheet(table: Table, access: &[u8], out: &mut [u8]) -> Octets
    ensures { SheetWrittenBy access.now table out.old result out.new }
{
    Octets::from(write_sheet(table, access, out))
}

// The table that `sheet` holds, by the profile of an access.
#[unsafe(no_mangle)]
pub extern "C" fn sconcetoad_read_sheet(access: &[u8], sheet: &[u8]) -> SheetTaken
    ensures { SheetTakenBy access.now sheet.now result }
{
    match read_sheet(access, sheet) {
        Ok(table) => SheetTaken { refusal: 0, table },
        Err(refusal) => SheetTaken {
            refusal: u8::from(refusal),
            table: fresh_table(),
        },
    }
}

// The listing of `sheet` at the start of `out`.
#[unsafe(no_mangle)]
pub extern "C" fn sconcetoad_list_sheet(sheet: &[u8], out: &mut [u8]) -> Octets
    ensures { SheetListedBy sheet.now out.old result out.new }
{
    Octets::from(list_sheet(sheet, out))
}
