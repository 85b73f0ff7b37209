// A table: the instances and the last handled identifier.
ghost use Rattle.exchange.specs.Table.{FreshTable, TableGood};

use instances::{Run, fresh_run};
use profile::Profile;

pub(crate) const LASTMOST: u16 = 32767;

#[repr(C)]
#[derive(Clone, Copy)]
pub struct Table {
    pub last: u16,
    pub run: Run,
}

// The table of a new access.
pub fn fresh_table() -> Table
    ensures { FreshTable result }
{
    let run = fresh_run();
    Table { last: 0, run }
}

impl Table {
    // Whether a table breaks no rule of the profile.
    pub fn good(self, p: Profile) -> bool
        ensures { TableGood p self result }
    {
        if LASTMOST < self.last {
            return false;
        }
        let run = self.run;
        run.good(p)
    }
}
