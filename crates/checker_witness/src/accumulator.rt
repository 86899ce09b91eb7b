//! The constraints of the accumulator on the rows of given traces.
ghost use Rattle.std.specs.Prelude.{◌≡◌, ◌↔◌, ◌+◌, ◌%◌, ◌==◌, ◌<◌, ◌≤◌, All, IsTrue, if◌then◌else◌, length, map, slice_index_or};
ghost use Rattle.checker_witness.specs.Ranges.{HoldsUntil};
ghost use Rattle.checker_witness.specs.internal.Rows.{AccumulatorHolds, AccumulatorHoldsAt, AreRowInputs, accumulator_window};
ghost use Rattle.field.specs.Sums.{sum_in};
ghost use Rattle.lookup_model.specs.Records.{AreRecords};
ghost use Rattle.matrix.specs.Matrix.{height, row as row_of};

use air::RowInputs;
use field::{Domain, ExtensionField, Field, Over};
use lookup::Lookup;
use matrix::RowMajorMatrix;

/// Up to which of the rows from `first` up to `end` the accumulator's constraints are zero: the first
/// row on which one is not, or `end`.
pub(crate) fn accumulator_holds_until<'a, F: Field, EF: ExtensionField<F>>(
    inputs: &'a RowInputs<'a, F, EF>,
    lookups: &[Lookup<F>],
    first: usize,
    end: usize,
) -> usize
    requires checked { AreRowInputs inputs.now lookups.now }
    requires from { first ≤ end }
    requires up_to { end ≤ height inputs.now.main.now }
    ensures { HoldsUntil (AccumulatorHolds ⟦<EF as Over<F>>⟧.fields inputs.now lookups.now)
        first end result }
{
    let (num_rows, terminal) = (inputs.main.height(), inputs.permutation_values[0]);
    for row in first..end {
        if !accumulator_holds(inputs.permutation, terminal, lookups, num_rows, row) {
            return row;
        }
    }
    end
}

/// Whether the accumulator is zero if this is the first row, and with the fractions of the row is what
/// has to come after it. The caller counts the rows, `num_rows`, once for all of them.
pub(crate) fn accumulator_holds<F: Field, EF: ExtensionField<F>>(
    aux: &RowMajorMatrix<EF>,
    terminal: EF,
    lookups: &[Lookup<F>],
    num_rows: usize,
    row: usize,
) -> bool
    requires rows { (num_rows ≡ height aux.now) × (row < num_rows) }
    requires some { 0 < length lookups.now }
    requires records { AreRecords lookups.now }
    requires cells { length lookups.now < aux.now.width }
    ensures { IsTrue result ↔ AccumulatorHoldsAt ⟦<EF as Over<F>>⟧.fields
        (accumulator_window aux.now terminal row) lookups.now }
{
    let cells = aux.row_slice(row);
    starts_at_zero(row, cells[0])
        && accumulate(cells, lookups) == expected_next(aux, terminal, num_rows, row)
}

/// Whether the accumulator is zero on this row, if that is the first one.
fn starts_at_zero<EF: Domain>(row: usize, accumulator: EF) -> bool
    ensures { IsTrue result ↔ (row ≡ 0 → accumulator ≡ EF.ring.zero) }
{
    row > 0 || accumulator.is_zero()
}

/// The accumulator of a row plus the fractions of all lookups. `cells` are those of the row.
fn accumulate<F: Field, EF: ExtensionField<F>>(cells: &[EF], lookups: &[Lookup<F>]) -> EF
    requires accumulator { 0 < length cells.now }
    requires fractions { All (λ lookup. lookup.column + 1 < length cells.now) lookups.now }
    ensures { result ≡ EF.ring.add (slice_index_or cells.now 0 EF.ring.zero)
        (sum_in EF.ring (map (λ lookup. slice_index_or cells.now (lookup.column + 1) EF.ring.zero)
        lookups.now)) }
{
    let mut sum = cells[0];
    for lookup in lookups {
        sum = sum + cells[lookup.column + 1];
    }
    sum
}

/// What the accumulator has to be after a row: the accumulator of the next row, and after the last row
/// the terminal.
fn expected_next<EF: Domain>(
    aux: &RowMajorMatrix<EF>,
    terminal: EF,
    num_rows: usize,
    row: usize,
) -> EF
    requires rows { num_rows ≡ height aux.now }
    requires row_exists { row < num_rows }
    requires accumulator { 0 < aux.now.width }
    ensures { result ≡ (if row + 1 == height aux.now then terminal
        else slice_index_or (row_of aux.now ((row + 1) % height aux.now)) 0 EF.ring.zero) }
{
    if row + 1 == num_rows {
        terminal
    } else {
        aux.row_slice(row + 1)[0]
    }
}
