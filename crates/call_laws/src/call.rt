//! The call.
ghost use Rattle.std.specs.Prelude.{◌∷◌, [], IfOk};
ghost use Rattle.studio.specs.studio_rules.Ending.{IsOneOf};
ghost use Rattle.studio.specs.studio_rules.declared.status.Status.TheVariants.{Done, ReadFault};
ghost use Rattle.studio.specs.studio_rules.declared.status.Status.TheVariants.{WriteFault, Memory};

use crate::one_unit::{plant_shelf, solve_words};
use crate::{one_unit_is_sure, sure_call_is_done};
use std::alloc::{AllocError, Global};
use studio::{NoWatch, Outputs, Sink, Status, studio};

/// A worked `solve` ends with 0, unless a read, an output or memory fails. It is of the plant of
/// one unit, within a budget of 4. If it ends with 0, its whole answer is written.
pub fn solve_one_unit<K: Sink, E: Sink>(
    alloc: Global,
    out: &mut Outputs<K, E>,
) -> Result<Status, AllocError>
    ensures { IfOk result (λ status. IsOneOf (Done ∷ ReadFault ∷ WriteFault ∷ Memory ∷ []) status) }
{
    one_unit_is_sure();
    sure_call_is_done();
    let mut shelf = plant_shelf(alloc)?;
    let words = solve_words(alloc)?;
    Ok(studio(alloc, &words, &mut shelf, out, NoWatch))
}
