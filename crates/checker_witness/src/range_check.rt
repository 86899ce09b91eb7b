//! The check of a range of rows, from the rows around it.
ghost use Rattle.std.specs.Prelude.{◌≡◌, IfOk};
ghost use Rattle.air.specs.Traces.{AirTraces, height_of};
ghost use Rattle.checker_witness.specs.Columns.{ColumnsHoldUntil, HasColumns};
ghost use Rattle.checker_witness.specs.Ranges.{RangeAddsUp};
ghost use Rattle.lookup_model.specs.Batches.Instances.{instance_of};
ghost use Rattle.lookup_model.specs.Batches.Refusals.{HasShapeAt};
ghost use Rattle.checker_witness.specs.Around.{AreAround, IsMatrixAround, IsRange, over_traces, rows_around};
ghost use Rattle.matrix.specs.Matrix.{Matrix};

use crate::range::RowRange;
use crate::rows::columns_hold_until;
use field::{ExtensionField, Field, Over};
use lookup::LookupTerminal;
use lookup_model::BatchInstance;
use matrix::RowMajorMatrix;
use std::alloc::{AllocError, Global};

/// Up to which row of a range every constraint of one AIR is zero, as [`columns_hold_until`] says it: the first
/// row on which one is not, or the end of the range.
///
/// The traces of `around` and the auxiliary trace `aux` have the rows around the range alone: row 0, unless
/// the range begins with it; the rows of the range; and the row after them, unless the range ends with the
/// trace. The answer is that for the whole traces, whatever their other rows are. Requires at least one row,
/// a range within the height, traces of [`rows_around`](RowRange::rows_around) rows, and a result of the
/// right shape over these (`check_shape` of `checker`). `challenges` are an alpha and a beta for each lookup;
/// the ids of the instance are ignored. Fails only when out of memory.
///
/// Where all rows of the range pass, they add up: the fractions on them lead from the accumulator on the first
/// row, which is zero on row 0, to that after the last row, or to the terminal.
pub fn rows_hold_around<F: Field, EF: ExtensionField<F>>(
    alloc: Global,
    around: &BatchInstance<'_, F>,
    challenges: &[EF],
    aux: &RowMajorMatrix<EF>,
    terminal: &Option<LookupTerminal<EF>>,
    range: RowRange,
) -> Result<usize, AllocError>
    requires columns { HasColumns (instance_of around.now) challenges.now }
    requires shape { HasShapeAt (instance_of around.now) (aux.now, terminal.now) }
    requires range { IsRange range }
    requires rows { height_of (instance_of around.now).traces
        ≡ rows_around range.height range.first range.end }
    ensures holds { IfOk result (λ r. (whole : AirTraces F) (auxiliary : Matrix EF)
        → AreAround range whole (instance_of around.now).traces
        → IsMatrixAround range auxiliary aux.now
        → ColumnsHoldUntil ⟦<EF as Over<F>>⟧.fields whole (instance_of around.now).lookups
        challenges.now (auxiliary, terminal.now) range.first range.end r) }
    ensures adds { IfOk result (λ r. (whole : AirTraces F) (auxiliary : Matrix EF)
        → AreAround range whole (instance_of around.now).traces
        → IsMatrixAround range auxiliary aux.now
        → RangeAddsUp ⟦<EF as Over<F>>⟧.fields (over_traces whole (instance_of around.now))
        (auxiliary, terminal.now) range.first range.end r) }
{
    let first = range.place();
    let end = first + range.rows();
    let row = columns_hold_until(alloc, around, challenges, aux, terminal, first, end)?;
    Ok(range.first + (row - first))
}
