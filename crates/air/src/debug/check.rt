//! Checking all rows of given traces.
ghost use Rattle.std.specs.Prelude.{◌<◌, ℕ, MatchResult, Ok};
ghost use Rattle.std.specs.Option.{option_copied};
ghost use Rattle.matrix.specs.Matrix.{height};
ghost use Rattle.air.specs.Row.{HeightFits, IsFirstRefusedRow, OptionHeightFits, RowAnswers};

use crate::debug::builder::DebugConstraintBuilder;
use crate::debug::inputs::RowInputs;
use air_expressions::{Air, AirError};
use field::{ExtensionField, Field};
use std::alloc::Global;

/// Evaluates the AIR on every row, in order.
///
/// Fails with the AIR's refusal on the first row that has one; later rows are not evaluated.
pub fn check_rows<'a, F: Field, EF: ExtensionField<F>, A: Air<DebugConstraintBuilder<'a, F, EF>>>(
    alloc: Global,
    air: &A,
    inputs: &'a RowInputs<'a, F, EF>,
) -> Result<(), AirError>
    requires preprocessed { OptionHeightFits (height inputs.now.main.now)
        (option_copied inputs.now.preprocessed) }
    requires permutation { HeightFits (height inputs.now.main.now) inputs.now.permutation.now }
    ensures { MatchResult result
        (λ _. (r : ℕ) → r < height inputs.now.main.now
        → RowAnswers A.evaluates air.now inputs.now r (Ok tt))
        (λ e. IsFirstRefusedRow (RowAnswers A.evaluates air.now inputs.now)
        (height inputs.now.main.now) e) }
{
    for row in 0..inputs.main.height() {
        check_row(alloc, air, inputs, row)?;
    }
    Ok(())
}

#[tactic(auto, unfolding(crate::specs::Row::RowAnswers))]
fn check_row<'a, F: Field, EF: ExtensionField<F>, A: Air<DebugConstraintBuilder<'a, F, EF>>>(
    alloc: Global,
    air: &A,
    inputs: &'a RowInputs<'a, F, EF>,
    row: usize,
) -> Result<(), AirError>
    requires row { row < height inputs.now.main.now }
    requires preprocessed { OptionHeightFits (height inputs.now.main.now)
        (option_copied inputs.now.preprocessed) }
    requires permutation { HeightFits (height inputs.now.main.now) inputs.now.permutation.now }
    ensures { RowAnswers A.evaluates air.now inputs.now row result }
{
    let mut builder = DebugConstraintBuilder::new(inputs, row);
    air.eval(alloc, &mut builder)
}
