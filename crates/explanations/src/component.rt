// A component is explained, or refused.
ghost use Rattle.explanations.specs.Explained.{Explains};

use crate::element::write_elements;
use crate::row::write_said;
use refusals::{COMPONENTMOST, Refusal};
use skip::COMPONENTDEPTH;

// The most octets of an explanation: 30 for each octet of the component, and 175 of its last line.
const EXPLANATIONMOST: usize = 30 * COMPONENTMOST + 175;

// The explanation of a component at the start of the output, and how many octets that has.
#[tactic(auto, using(crate::proofs::Components::explains_short, crate::proofs::Components::explains_long))]
pub fn explain(component: &[u8], out: &mut [u8]) -> Result<usize, Refusal>
    ensures { Explains component.now out.old result out.new }
{
    if out.len() < EXPLANATIONMOST {
        return Err(Refusal::ShortOutput);
    }
    if COMPONENTMOST < component.len() {
        return Err(Refusal::LongComponent);
    }
    let p = write_elements(COMPONENTDEPTH, out, 0, component, 0, component.len());
    let count = write_said(out, p, component);
    Ok(count)
}
