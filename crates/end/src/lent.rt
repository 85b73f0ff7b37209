// "The end's picture is updated where it stands by each arriving component" (document 01, "The customer end").
ghost use Rattle.end.specs.Taking.{Takes};

use crate::end::{End, end_good};
use crate::take::took;
use profile::read_access;
use refusals::{COMPONENTMOST, Refusal};

// What an arriving component does to the end that is lent; where it is refused, nothing. The step itself is `took`.
pub fn arrived(end: &mut End, access: &[u8], component: &[u8]) -> Result<(), Refusal>
    ensures { Takes access.now end.old component.now result end.new }
{
    if COMPONENTMOST < component.len() {
        return Err(Refusal::LongComponent);
    }
    let Some(p) = read_access(access) else {
        return Err(Refusal::BadProfile);
    };
    if !end_good(end, p) {
        return Err(Refusal::BadTable);
    }
    *end = took(p, *end, component);
    Ok(())
}
