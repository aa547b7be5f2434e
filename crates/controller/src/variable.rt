ghost use Rattle.std.specs.Prelude.{◌≡◌, ◌<◌, ◌≤◌, MatchResult};
ghost use Rattle.controller.specs.declared.refusal.Refusal.TheVariants.{NoVariable};

use crate::VARIABLES;
use crate::refusal::Refusal;

// The index of a variable, where there is one. An index and no reference: of what is written through one that `get_mut`
// lends of an array, a proof knows no element.
pub(crate) fn index_of(variable: u8) -> Result<usize, Refusal>
    ensures { MatchResult result
        (λ index. (variable < 32) × (index ≡ variable))
        (λ refusal. (32 ≤ variable) × (refusal ≡ NoVariable)) }
{
    let index = usize::from(variable);
    if index < VARIABLES {
        Ok(index)
    } else {
        Err(Refusal::NoVariable)
    }
}
