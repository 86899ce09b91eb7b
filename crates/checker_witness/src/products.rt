//! The constraint of a lookup's fraction on the rows of a chunk, by products that are made before any of
//! them is compared.
ghost use Rattle.std.specs.Prelude.{◌≡◌, ◌-◌, ◌+◌, ◌<◌, ◌≤◌, ℕ, IfOk, length, slice_index_or};
ghost use Rattle.air.specs.Row.{input_window};
ghost use Rattle.checker_witness.specs.Ranges.{HoldsUntil};
ghost use Rattle.checker_witness.specs.internal.Products.{HasMultiplicity, fraction_on};
ghost use Rattle.checker_witness.specs.internal.Rows.{FractionHolds};
ghost use Rattle.lookup_columns.specs.internal.StoredRows.{StoreOnRows};
ghost use Rattle.matrix.specs.Matrix.{height, row as row_of};

use crate::fractions::fraction_holds_until;
use air::RowInputs;
use field::{Domain, ExtensionField, Field, Over};
use lookup::Lookup;
use lookup_columns::BranchColumns;
use matrix::RowMajorMatrix;
use std::alloc::AllocError;

/// Up to which of the rows from `first` up to `end` the constraint of a lookup's fraction is zero: the
/// first row on which it is not, or `end`. `columns` are those of the lookup, from row `first` on.
///
/// A lookup of one tuple without flags takes one product in the extension on each row. These go to the list
/// `products`, which is filled anew. Fails only when out of memory.
pub(crate) fn lookup_holds_until<'a, F: Field, EF: ExtensionField<F>>(
    products: &mut Vec<EF>,
    inputs: &'a RowInputs<'a, F, EF>,
    lookup: &Lookup<F>,
    columns: &[BranchColumns<F, EF>],
    first: usize,
    end: usize,
) -> Result<usize, AllocError>
    requires from { first ≤ end }
    requires up_to { end ≤ height inputs.now.permutation.now }
    requires cell { lookup.now.column + 1 < inputs.now.permutation.now.width }
    requires columns { StoreOnRows F.ring EF.ring EF.embed inputs.now.challenges.now
        (λ row. (input_window inputs.now row).base) first end lookup.now columns.now }
    ensures { IfOk result (HoldsUntil (FractionHolds ⟦<EF as Over<F>>⟧.fields inputs.now lookup.now)
        first end) }
{
    if lookup.flags.is_none() && columns.len() == 1 {
        let (aux, column) = (inputs.permutation, lookup.column);
        tuple_holds_until(products, aux, column, &columns[0], first, end)
    } else {
        Ok(fraction_holds_until(inputs, lookup, columns, first, end))
    }
}

/// Up to which of the rows from `first` up to `end` the fraction of a lookup's column times the denominator of
/// its tuple is the tuple's multiplicity: the first row on which it is not, or `end`. `branch` has the columns
/// of the tuple, from row `first` on.
fn tuple_holds_until<F: Field, EF: ExtensionField<F>>(
    products: &mut Vec<EF>,
    aux: &RowMajorMatrix<EF>,
    column: usize,
    branch: &BranchColumns<F, EF>,
    first: usize,
    end: usize,
) -> Result<usize, AllocError>
    requires range { (first ≤ end) × (end ≤ height aux.now) }
    requires cell { column + 1 < aux.now.width }
    requires multiplicities { end - first ≤ length branch.now.multiplicities.items }
    requires denominators { end - first ≤ length branch.now.denominators.items }
    ensures { IfOk result (HoldsUntil
        (HasMultiplicity F.ring EF.ring EF.embed branch.now aux.now column first) first end) }
{
    products.clear();
    products.resize(end - first, EF::ZERO)?;
    fill_products(products, aux, column, &branch.denominators, first);
    let multiplicities = branch.multiplicities.as_slice();
    for row in first..end {
        if products[row - first] != EF::embed(multiplicities[row - first]) {
            return Ok(row);
        }
    }
    Ok(end)
}

/// Sets each place of a list to the product of the denominator at this place and the fraction of a lookup's
/// column, on the rows from `first` on.
///
/// No product waits for another one or for a test, so over `BabyBear4` the compiler makes four at a time.
#[inline(never)]
fn fill_products<EF: Domain>(
    products: &mut [EF],
    aux: &RowMajorMatrix<EF>,
    column: usize,
    denominators: &[EF],
    first: usize,
)
    requires rows { first + length products.old ≤ height aux.now }
    requires cell { column + 1 < aux.now.width }
    requires denominators { length products.old ≤ length denominators.now }
    ensures many { length products.new ≡ length products.old }
    ensures products { (i : ℕ) → i < length products.old → slice_index_or products.new i EF.ring.zero
        ≡ EF.ring.mul (slice_index_or denominators.now i EF.ring.zero)
        (fraction_on EF.ring aux.now column (first + i)) }
{
    let (values, width) = (aux.values(), aux.width());
    let cell = column + 1;
    for i in 0..products.len() {
        products[i] = denominators[i] * cell_in_row(values, width, first + i, cell);
    }
}

/// A cell of a row of the trace of this width that has these values.
fn cell_in_row<EF: Domain>(values: &[EF], width: usize, row: usize, cell: usize) -> EF
    requires row_exists { row < height (record { values = values.now; width = width }) }
    requires cell_exists { cell < width }
    ensures { result ≡ slice_index_or
        (row_of (record { values = values.now; width = width }) row) cell EF.ring.zero }
{
    values[row * width + cell]
}
