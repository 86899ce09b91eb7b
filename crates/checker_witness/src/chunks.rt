//! Up to which row all constraints are zero, in chunks of rows.
ghost use Rattle.std.specs.Prelude.{◌<◌, ◌≤◌, IfOk};
ghost use Rattle.std.specs.List.{AllZip};
ghost use Rattle.checker_witness.specs.Ranges.{HoldsUntil};
ghost use Rattle.checker_witness.specs.internal.Rows.{AreRowInputs, HoldsOn};
ghost use Rattle.lookup_columns.specs.LookupSteps.{AreLookupSteps};
ghost use Rattle.matrix.specs.Matrix.{height};

use crate::accumulator::accumulator_holds_until;
use crate::products::lookup_holds_until;
use air::{RowInputs, Traces};
use field::{ExtensionField, Field, Over};
use lookup::Lookup;
use lookup_columns::{
    ColumnInputs, ColumnMemory, LookupSteps, columns_of_lookup, rows_between, steps_of_lookups,
};
use lookup_generation::chunk_end;
use std::alloc::{AllocError, Global};

/// The lists of a chunk, which the next one fills again.
#[derive(Drop)]
struct CheckMemory<F, EF> {
    /// For the columns of lookups.
    columns: ColumnMemory<F, EF>,
    /// For the products of denominators and fractions.
    products: Vec<EF>,
}

/// Up to which of the rows from `first` up to `end` all constraints are zero: the first row on which one
/// is not, or `end`. The first chunk that has such a row ends the check.
///
/// All expressions are flattened once, and the lists of a chunk are filled again for the next one.
pub(crate) fn chunks_hold_until<'a, F: Field, EF: ExtensionField<F>>(
    alloc: Global,
    inputs: &'a RowInputs<'a, F, EF>,
    lookups: &[Lookup<F>],
    first: usize,
    end: usize,
) -> Result<usize, AllocError>
    requires checked { AreRowInputs inputs.now lookups.now }
    requires from { first ≤ end }
    requires up_to { end ≤ height inputs.now.main.now }
    ensures { IfOk result (HoldsUntil
        (HoldsOn ⟦<EF as Over<F>>⟧.fields inputs.now lookups.now) first end) }
{
    let steps = steps_of_lookups(alloc, lookups)?;
    let mut memory = CheckMemory {
        columns: ColumnMemory::new(alloc),
        products: Vec::new(alloc),
    };
    let mut next = first;
    while next < end {
        let last = chunk_end(next, end);
        let until = chunk_holds_until(alloc, &mut memory, inputs, lookups, &steps, next, last)?;
        if until < last {
            return Ok(until);
        }
        next = last;
    }
    Ok(end)
}

/// Up to which of the rows from `first` up to `end` all constraints are zero: the first row on which one
/// is not, or `end`.
///
/// The accumulator is looked at first. Each lookup is then looked at only before the row found so far,
/// and its columns are put away before those of the next one are made.
fn chunk_holds_until<'a, F: Field, EF: ExtensionField<F>>(
    alloc: Global,
    memory: &mut CheckMemory<F, EF>,
    inputs: &'a RowInputs<'a, F, EF>,
    lookups: &[Lookup<F>],
    steps: &[LookupSteps<F>],
    first: usize,
    end: usize,
) -> Result<usize, AllocError>
    requires checked { AreRowInputs inputs.now lookups.now }
    requires steps { AllZip AreLookupSteps steps.now lookups.now }
    requires from { first ≤ end }
    requires up_to { end ≤ height inputs.now.main.now }
    ensures { IfOk result (HoldsUntil
        (HoldsOn ⟦<EF as Over<F>>⟧.fields inputs.now lookups.now) first end) }
{
    let traces = Traces {
        main: inputs.main,
        preprocessed: inputs.preprocessed,
        public_values: inputs.public_values,
    };
    let rows = rows_between(alloc, &mut memory.columns.indices, first, end)?;
    let on_rows = ColumnInputs {
        traces: &traces,
        challenges: inputs.challenges,
        rows: &rows,
    };
    let mut until = accumulator_holds_until(inputs, lookups, first, end);
    for i in 0..lookups.len() {
        let lookup = &lookups[i];
        let columns = columns_of_lookup(alloc, &mut memory.columns, &on_rows, lookup, &steps[i])?;
        let products = &mut memory.products;
        until = lookup_holds_until(products, inputs, lookup, &columns, first, until)?;
        memory.columns.put_branches(columns)?;
    }
    memory.columns.indices.put(rows)?;
    Ok(until)
}
