// A table is written as a night sheet (document 01, "Night sheet").
ghost use Rattle.std.specs.Prelude.{◌≡◌, true, [], ◌∷◌, ◌≤◌};
ghost use Rattle.laws.specs.Over.{Wrote};
ghost use Rattle.numbers.specs.Address.{address_good};
ghost use Rattle.instances.specs.Places.{run_most};
ghost use Rattle.instances.specs.Run.{instances_of};
ghost use Rattle.forms.specs.Instance.{all_groups, address_fields};
ghost use Rattle.sheets.specs.Sheets.{WritesSheet};
ghost use Rattle.sheets.specs.inner.Write.{Room, above, NoneBelow, Space, WroteInstances, Writable, AllWritable};

use exchange::Table;
use forms::form_one;
use groups::put_groups;
use instances::{Instance, ROOM, Run, stored};
use numbers::Address;
use profile::read_access;
use refusals::Refusal;

// The most octets of an instance, and of a sheet: form, last handled and count are five.
const INSTANCEMOST: usize = 67;

const SHEETMOST: usize = INSTANCEMOST * ROOM + 5;

// A digit is stored as its character, and a subaddress's octet as itself.
const DIGITZERO: u8 = 48;

const OCTETZERO: u8 = 0;

// Octets, each by how far it is above `base`.
fn write_above(out: &mut [u8], at: usize, octets: &[u8], base: u8) -> usize
    requires { NoneBelow base octets.now × Room out.old at (all_groups (above base octets.now)) }
    ensures { Wrote out.old at (all_groups (above base octets.now)) result out.new }
{
    let mut p = at;
    for octet in octets {
        p = put_groups(out, p, (*octet - base) as u32);
    }
    p
}

fn write_address(out: &mut [u8], at: usize, address: Address) -> usize
    requires { (address_good address ≡ true) × Room out.old at (all_groups (address_fields address)) }
    ensures { Wrote out.old at (all_groups (address_fields address)) result out.new }
{
    let number = address.number;
    let p = put_groups(out, at, number.form as u32);
    let q = put_groups(out, p, number.kind as u32);
    let k = put_groups(out, q, number.count as u32);
    let m = write_above(out, k, &number.digits[..number.count as usize], DIGITZERO);
    let t = put_groups(out, m, address.subcount as u32);
    write_above(out, t, &address.sub[..address.subcount as usize], OCTETZERO)
}

fn write_instance(out: &mut [u8], at: usize, x: Instance) -> usize
    requires { Writable x × Space out.old at (x ∷ []) }
    ensures { WroteInstances out.old at (x ∷ []) result out.new }
{
    let p = put_groups(out, at, x.procedure as u32);
    let q = put_groups(out, p, x.number as u32);
    let k = put_groups(out, q, x.service as u32);
    write_address(out, k, x.address)
}

// The instances of a run, one after the other.
fn write_run(out: &mut [u8], at: usize, run: &Run) -> usize
    requires { (run.now.count ≤ run_most) × AllWritable (instances_of run.now) × Space out.old at (instances_of run.now) }
    ensures { WroteInstances out.old at (instances_of run.now) result out.new }
{
    let mut p = at;
    for x in &run.run[..stored(run.count, ROOM)] {
        p = write_instance(out, p, *x);
    }
    p
}

// The table as a sheet at the start of the output, and how many octets that has.
#[tactic(auto, using(crate::proofs::WrittenSheets::writes), unfolding(crate::specs::Sheets::wrote_sheet))]
pub fn write_sheet(table: Table, access: &[u8], out: &mut [u8]) -> Result<usize, Refusal>
    ensures { WritesSheet access.now table out.old result out.new }
{
    if out.len() < SHEETMOST {
        return Err(Refusal::ShortOutput);
    }
    let Some(profile) = read_access(access) else {
        return Err(Refusal::BadProfile);
    };
    if !table.good(profile) {
        return Err(Refusal::BadTable);
    }
    let f = form_one();
    let p = put_groups(out, 0, f.code as u32);
    let q = put_groups(out, p, table.last as u32);
    let k = put_groups(out, q, table.run.count as u32);
    let count = write_run(out, k, &table.run);
    Ok(count)
}
