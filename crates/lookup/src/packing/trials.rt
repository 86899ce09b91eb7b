//! Trials: whether a lookup fits into the open column of its bus.
ghost use Rattle.std.specs.Prelude.{◌≡◌, ◌<◌, ◌⊎◌, MatchResult};
ghost use Rattle.lookup_model.specs.Outline.{fields_of};
ghost use Rattle.lookup.specs.Packing.{trial};
ghost use Rattle.lookup.specs.Trials.{IsMember, IsTrial};
ghost use Rattle.lookup.specs.internal.Trials.{IsTried, IsTrialRefusal};

use crate::packing::degrees::TrialDegrees;
use field::Field;
use lookup_model::{Lookup, LookupError};

/// Tries the next lookup in the open column, and returns it if it stays apart. `kept` is what `degrees`
/// keeps of the trial.
///
/// If that alone tells that the degree is above the greatest that is allowed, nothing moves. Otherwise
/// it moves the tuples of the lookup behind those of the column, asks for the degree, and moves them
/// back if that is too great.
///
/// Refuses what is refused for the degree, and `CountWeightOverflow` if the degree is within the
/// budget and the weights have no sum that fits.
pub(crate) fn try_together<F: Field, T: TrialDegrees<F>>(
    column: &mut Lookup<F>,
    next: Lookup<F>,
    kept: T::Kept,
    max_degree: usize,
    degrees: &T,
) -> Result<Option<Lookup<F>>, LookupError>
    requires callable { (lookup : _)
        → IsTrial (fields_of column.old) (fields_of next) lookup → T.may_ask degrees.now lookup }
    requires kept { T.keeps degrees.now kept (trial (fields_of column.old) (fields_of next)) }
    requires column { IsMember column.old }
    requires next { IsMember next }
    ensures { MatchResult result
        (IsTried (T.answers degrees.now) max_degree column.old next column.new)
        (λ e. (e ≡ LookupError.Memory)
        ⊎ IsTrialRefusal (T.answers degrees.now) max_degree (fields_of column.old)
        (fields_of next) e) }
{
    if degrees.is_above(kept, max_degree) {
        return Ok(Some(next));
    }
    let mut next = next;
    let pivot = column.elements.len();
    column.elements.append(&mut next.elements)?;
    column.multiplicities.append(&mut next.multiplicities)?;
    let answer = degrees.degree(column, kept)?;
    if answer <= max_degree {
        match column.count_weight.checked_add(next.count_weight) {
            Some(sum) => {
                column.count_weight = sum;
                Ok(None)
            }
            None => Err(LookupError::CountWeightOverflow),
        }
    } else {
        next.elements = column.elements.split_off(pivot)?;
        next.multiplicities = column.multiplicities.split_off(pivot)?;
        Ok(Some(next))
    }
}
