//! The set flags of an exclusive lookup on one row.
ghost use Rattle.std.specs.Prelude.{◌≡◌, ◌≢◌, IfErr, IfOk, List, ℕ, [], ◌∷◌, ◌++◌, length};
ghost use Rattle.lookup_model.specs.Selection.{AreIndices, AreSetFlags};

use crate::error::LookupError;
use field::Field;

/// The indices of the set flags, counted in whole numbers.
#[derive(Clone, Copy, Debug, PartialEq, Eq)]
pub enum SetFlags {
    /// No flag is set.
    Nothing,
    /// The flag of this index is set, and no other.
    One(usize),
    /// More than one flag is set.
    Several,
}

/// The set flags plus one more.
fn with_index(set: SetFlags, index: usize) -> SetFlags
    ensures { (indices : List ℕ) → AreIndices set indices
        → AreIndices result (indices ++ index ∷ []) }
{
    match set {
        SetFlags::Nothing => SetFlags::One(index),
        SetFlags::One(_) | SetFlags::Several => SetFlags::Several,
    }
}

/// The set flags, plus the flag at `index` if it is set.
///
/// Refuses a flag that is neither zero nor one, with the row and the lookup's column.
pub fn with_flag<F: Field>(
    set: SetFlags,
    index: usize,
    flag: F,
    row: usize,
    column: usize,
) -> Result<SetFlags, LookupError>
    ensures next { IfOk result (λ next. (flags : List F) → length flags ≡ index
        → AreSetFlags F.ring F.eq flags set
        → AreSetFlags F.ring F.eq (flags ++ flag ∷ []) next) }
    ensures refused { IfErr result (λ e. (e ≡ LookupError.FlagNotBoolean row column)
        × (flag ≢ F.ring.zero) × (flag ≢ F.ring.one)) }
{
    if flag.is_zero() {
        Ok(set)
    } else if flag == F::ONE {
        Ok(with_index(set, index))
    } else {
        Err(LookupError::FlagNotBoolean {
            row,
            lookup: column,
        })
    }
}
