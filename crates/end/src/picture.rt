// The picture with what a good list says of a procedure (document 01, "The customer end").
ghost use Rattle.std.specs.Prelude.{◌≡◌, true, [], ◌∷◌, ◌++◌};
ghost use Rattle.instances.specs.Run.{instances_of, packed, deactivated, is_of, each_good};
ghost use Rattle.end.specs.Listed.{every_of, replaced};
ghost use Rattle.end.specs.inner.Listed.{Packed};

use crate::list::held;
use instances::{Instance, ROOM, Run, fresh_run};

// One instance more, where there is room.
fn add(next: &mut Run, x: Instance)
    requires { Packed next.old }
    ensures { next.new ≡ packed (instances_of next.old ++ x ∷ []) }
{
    let n = next.count as usize;
    if n < ROOM {
        next.run[n] = x;
        next.count += 1;
    }
}

// Those that are not of the procedure.
fn add_others(next: &mut Run, procedure: u8, instances: &[Instance])
    requires { Packed next.old }
    ensures { next.new ≡ packed (instances_of next.old ++ deactivated (every_of procedure) instances.now) }
{
    for x in instances {
        if x.procedure != procedure {
            add(next, *x);
        }
    }
}

// The procedure's instances make way for those of the list, which are of that procedure.
pub(crate) fn replaced_by(picture: Run, procedure: u8, list: Run) -> Run
    requires { each_good (is_of procedure) (instances_of list) ≡ true }
    ensures { result ≡ packed (replaced procedure (instances_of list) (instances_of picture)) }
{
    let old = held(&picture);
    let new = held(&list);
    let at = old
        .iter()
        .position(|x| procedure < x.procedure)
        .unwrap_or(old.len());
    let mut next = fresh_run();
    add_others(&mut next, procedure, &old[..at]);
    for x in new {
        add(&mut next, *x);
    }
    add_others(&mut next, procedure, &old[at..]);
    next
}
