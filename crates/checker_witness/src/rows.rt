//! Up to which row the constraints of an AIR's lookups are zero.
ghost use Rattle.std.specs.Prelude.{◌<◌, ◌≤◌, IfOk, Some, length};
ghost use Rattle.air.specs.Traces.{height_of};
ghost use Rattle.checker_witness.specs.Columns.{ColumnsHoldUntil, HasColumns};
ghost use Rattle.checker_witness.specs.Ranges.{RangeAddsUp, RowsHoldUntil};
ghost use Rattle.lookup_model.specs.Batches.Instances.{HasPrefixes, IsFitting, instance_of};
ghost use Rattle.lookup_model.specs.Batches.Refusals.{HasShapeAt};
ghost use Rattle.lookup_model.specs.Challenges.{table_of};

use crate::chunks::chunks_hold_until;
use crate::few_rows::few_hold_until;
use air::RowInputs;
use field::{ExtensionField, Field, Over};
use lookup::{Challenges, LookupTerminal};
use lookup_model::BatchInstance;
use matrix::RowMajorMatrix;
use std::alloc::{AllocError, Global};

/// From how many rows on they are checked in chunks.
const MANY_ROWS: usize = 24;

/// Up to which of the rows from `first` up to `end` every constraint of one AIR is zero: the first row on
/// which one is not, or `end`.
///
/// So the rows of an AIR can be checked apart in ranges, as [`check_in_ranges`](crate::check_in_ranges)
/// shows. Where a range has a row and all its rows pass, their fractions lead from the accumulator on its first
/// row, which is zero on row 0, to that after its last row, or to the terminal.
///
/// Requires an auxiliary trace and a terminal of the right shape ([`check_shape`](crate::check_shape)). Fails
/// only when out of memory.
pub fn rows_hold_until<F: Field, EF: ExtensionField<F>>(
    alloc: Global,
    instance: &BatchInstance<'_, F>,
    challenges: &Challenges<EF>,
    aux: &RowMajorMatrix<EF>,
    terminal: &Option<LookupTerminal<EF>>,
    first: usize,
    end: usize,
) -> Result<usize, AllocError>
    requires fit { IsFitting (instance_of instance.now) }
    requires ids { HasPrefixes challenges.now instance.now }
    requires shape { HasShapeAt (instance_of instance.now) (aux.now, terminal.now) }
    requires range { (first ≤ end) × (end ≤ height_of (instance_of instance.now).traces) }
    ensures holds { IfOk result (RowsHoldUntil ⟦<EF as Over<F>>⟧.fields (table_of challenges.now)
        (instance_of instance.now) (aux.now, terminal.now) first end) }
    ensures adds { IfOk result (RangeAddsUp ⟦<EF as Over<F>>⟧.fields (instance_of instance.now)
        (aux.now, terminal.now) first end) }
{
    let columns = challenges.for_columns(alloc, instance.ids)?;
    columns_hold_until(alloc, instance, &columns, aux, terminal, first, end)
}

/// The same under an alpha and a beta for each lookup; further challenges are ignored, and so are the ids of
/// the instance. Requires a row if there are lookups.
///
/// The rows are checked in chunks. Fewer than 24 rows are checked one by one: for so few, making the
/// columns of a chunk takes longer than walking the expressions on each row.
pub fn columns_hold_until<F: Field, EF: ExtensionField<F>>(
    alloc: Global,
    instance: &BatchInstance<'_, F>,
    challenges: &[EF],
    aux: &RowMajorMatrix<EF>,
    terminal: &Option<LookupTerminal<EF>>,
    first: usize,
    end: usize,
) -> Result<usize, AllocError>
    requires columns { HasColumns (instance_of instance.now) challenges.now }
    requires nonempty { let i = instance_of instance.now in 0 < length i.lookups → 0 < height_of i.traces }
    requires shape { HasShapeAt (instance_of instance.now) (aux.now, terminal.now) }
    requires range { (first ≤ end) × (end ≤ height_of (instance_of instance.now).traces) }
    ensures holds { let i = instance_of instance.now in
        IfOk result (ColumnsHoldUntil ⟦<EF as Over<F>>⟧.fields i.traces i.lookups challenges.now
        (aux.now, terminal.now) first end) }
    ensures adds { IfOk result (RangeAddsUp ⟦<EF as Over<F>>⟧.fields (instance_of instance.now)
        (aux.now, terminal.now) first end) }
{
    match terminal {
        None => Ok(end),
        Some(terminal) => {
            if end - first < MANY_ROWS {
                Ok(few_hold_until(instance, challenges, aux, *terminal, first, end))
            } else {
                many_hold_until(alloc, instance, challenges, aux, *terminal, first, end)
            }
        }
    }
}

/// The same for an AIR with lookups, in chunks of rows.
fn many_hold_until<F: Field, EF: ExtensionField<F>>(
    alloc: Global,
    instance: &BatchInstance<'_, F>,
    challenges: &[EF],
    aux: &RowMajorMatrix<EF>,
    terminal: LookupTerminal<EF>,
    first: usize,
    end: usize,
) -> Result<usize, AllocError>
    requires columns { HasColumns (instance_of instance.now) challenges.now }
    requires shape { HasShapeAt (instance_of instance.now) (aux.now, Some terminal) }
    requires range { (first ≤ end) × (end ≤ height_of (instance_of instance.now).traces) }
    ensures { let i = instance_of instance.now in
        IfOk result (ColumnsHoldUntil ⟦<EF as Over<F>>⟧.fields i.traces i.lookups challenges.now
        (aux.now, Some terminal) first end) }
{
    let values = [terminal.0];
    let inputs = RowInputs {
        main: instance.main,
        preprocessed: instance.preprocessed,
        public_values: instance.public_values,
        permutation: aux,
        challenges,
        permutation_values: &values,
    };
    chunks_hold_until(alloc, &inputs, instance.lookups, first, end)
}
