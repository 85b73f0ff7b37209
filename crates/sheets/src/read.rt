// A night sheet is read against a profile, as a table (document 01, "Night sheet").
ghost use Rattle.sheets.specs.Sheets.{ReadsSheet};

use exchange::Table;
use forms::read_form;
use profile::read_access;
use refusals::Refusal;

// The table that a sheet holds, by the profile of an access.
#[tactic(auto, using(crate::proofs::Tables::reads))]
pub fn read_sheet(access: &[u8], sheet: &[u8]) -> Result<Table, Refusal>
    ensures { ReadsSheet access.now sheet.now result }
{
    let Some(p) = read_access(access) else {
        return Err(Refusal::BadProfile);
    };
    let Some(form) = read_form(sheet) else {
        return Err(Refusal::BadSheet);
    };
    if !form.run.good(p) {
        return Err(Refusal::BadSheet);
    }
    Ok(Table {
        last: form.last,
        run: form.run,
    })
}
