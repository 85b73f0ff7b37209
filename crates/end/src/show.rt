// What the subscriber's page reads (document 01, "The customer end").
ghost use Rattle.end.specs.Shown.{Shows, ShowsEntry};

use crate::end::{End, KNOWN, end_good};
use crate::list::every_of;
use crate::send::mark_at;
use instances::PROCEDURES;
use lists::{Entry, no_entries};
use profile::read_access;
use refusals::Refusal;

// A known procedure has so many instances; of one in doubt nothing is said.
#[derive(Clone, Copy)]
pub enum Shown {
    Known { count: usize },
    Doubt,
}

// The same, and the entry: a blank one past the count, and where there is none. There is no flag beside it that a page could take for the
// end of a list, since of a procedure in doubt there is no list.
#[derive(Clone, Copy)]
pub struct EntryShown {
    pub shown: Result<Shown, Refusal>,
    pub entry: Entry,
}

impl End {
    // The mark of a procedure and, where it is known, how many instances it has.
    pub fn shown(self, access: &[u8], procedure: u8) -> Result<Shown, Refusal>
        ensures { Shows access.now self procedure result }
    {
        let Some(p) = read_access(access) else {
            return Err(Refusal::BadProfile);
        };
        if !end_good(&self, p) {
            return Err(Refusal::BadTable);
        }
        if PROCEDURES <= procedure as usize {
            return Err(Refusal::BadRequest);
        }
        let marks = self.marks;
        if mark_at(marks, procedure) != KNOWN {
            return Ok(Shown::Doubt);
        }
        let picture = self.picture;
        let sel = every_of(procedure);
        Ok(Shown::Known {
            count: picture.chosen_count(sel),
        })
    }

    // The entry at the place `i` of a procedure that is known.
    pub fn entry(self, access: &[u8], procedure: u8, i: usize) -> EntryShown
        ensures { ShowsEntry access.now self procedure i result }
    {
        let shown = self.shown(access, procedure);
        let none = no_entries();
        let blank = none.entries[0];
        let told = match shown {
            Ok(told) => told,
            Err(_) => {
                return EntryShown {
                    shown,
                    entry: blank,
                };
            }
        };
        let Shown::Known { count } = told else {
            return EntryShown {
                shown,
                entry: blank,
            };
        };
        if count <= i {
            return EntryShown {
                shown,
                entry: blank,
            };
        }
        let Some(p) = read_access(access) else {
            // What is shown as known was read by this profile.
            unreachable!()
        };
        let picture = self.picture;
        let sel = every_of(procedure);
        let list = picture.entries(p, sel);
        let entry = list.entries[i];
        EntryShown { shown, entry }
    }
}
