// What a component says to the end whose request is outstanding, as C is told.
ghost use Rattle.std.specs.Prelude.{◌≡◌};
ghost use Rattle.sconcetoad.specs.Replied.{not_listed, RepliedBy};

use answers::{Reply, reply_to};
use lists::{Entries, entries_at, no_entries};

// The kinds of a reply.
const DROPPED: u8 = 0;

const WRONG: u8 = 1;

const REJECTED: u8 = 2;

const FAILED: u8 = 3;

const DONE: u8 = 4;

const LISTED: u8 = 5;

// What stands for the count where there is no list: nobody can take that for an empty one.
const NOLIST: u8 = 255;

// The kind of a reply, the value of an error, and the entries of a list.
#[repr(C)]
#[derive(Clone, Copy)]
pub struct Replied {
    pub kind: u8,
    pub value: i16,
    pub list: Entries,
}

fn not_listed(kind: u8, value: i16) -> Replied
    ensures { result ≡ not_listed kind value }
{
    let none = no_entries();
    let entries = none.entries;
    Replied {
        kind,
        value,
        list: Entries {
            count: NOLIST,
            entries,
        },
    }
}

// What `component` says to the end whose request has this identifier and operation.
#[unsafe(no_mangle)]
pub extern "C" fn sconcetoad_reply(component: &[u8], identifier: i16, operation: u8) -> Replied
    ensures { RepliedBy component.now identifier operation result }
{
    match reply_to(component, identifier, operation) {
        Reply::Dropped => not_listed(DROPPED, 0),
        Reply::Rejected => not_listed(REJECTED, 0),
        Reply::Failed { value } => not_listed(FAILED, value),
        Reply::Done => not_listed(DONE, 0),
        Reply::Listed { at, end } => {
            let Some(list) = entries_at(component, at, end) else {
                return not_listed(WRONG, 0);
            };
            Replied {
                kind: LISTED,
                value: 0,
                list,
            }
        }
        Reply::Wrong => not_listed(WRONG, 0),
    }
}
