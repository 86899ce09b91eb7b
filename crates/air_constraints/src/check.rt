//! Whether constraints are zero on all rows of traces.
ghost use Rattle.std.specs.Prelude.{◌≡◌, ◌<◌, MatchOption, MatchResult, slice_index_or};
ghost use Rattle.air.specs.Traces.{height_of, traces_of, window_of};
ghost use Rattle.air_constraints.specs.Checked.{checked_window, FailsFirst, IsFirstFault};
ghost use Rattle.air_constraints.specs.Hold.{Hold, HoldOn, value_at};
ghost use Rattle.air_expressions.specs.Meaning.{row_at};

use air::{BaseEntry, BaseLeaf, SymbolicExpression, SymbolicVariable, Traces, next_row};
use field::{Field, PrimeCharacteristicRing};
use matrix::{RowWindow, WindowAccess};
use thiserror::Error;

/// A constraint that is not zero on a row. Rows and constraints count from 0.
#[derive(Clone, Copy, Debug, PartialEq, Eq, Error)]
#[error("constraint {constraint} is not zero on row {row}")]
pub struct ConstraintFault {
    /// The first row on which a constraint is not zero.
    pub row: usize,
    /// The first constraint that is not zero on it.
    pub constraint: usize,
}

/// Checks that every constraint is zero on every row of the traces.
///
/// Fails with the first row on which one is not, and with the first constraint that is not zero on
/// it. A cell that the traces do not have counts as zero. The expressions are walked on each row: no
/// list is made.
pub fn check_constraints<F: Field>(
    constraints: &[SymbolicExpression<F>],
    traces: &Traces<'_, F>,
) -> Result<(), ConstraintFault>
    ensures { MatchResult result
        (λ _. HoldOn F.ring (traces_of traces.now) constraints.now)
        (IsFirstFault F.ring (traces_of traces.now) constraints.now) }
{
    let num_rows = traces.main.height();
    for row in 0..num_rows {
        let checked = CheckedRow::new(traces, num_rows, row);
        if let Some(constraint) = first_nonzero(&checked, constraints) {
            return Err(ConstraintFault { row, constraint });
        }
    }
    Ok(())
}

/// The value of an expression on a row of the traces. A cell that the traces do not have counts as
/// zero.
pub fn value_on_row<F: Field>(
    expression: &SymbolicExpression<F>,
    traces: &Traces<'_, F>,
    row: usize,
) -> F
    requires { row < height_of (traces_of traces.now) }
    ensures { result ≡ value_at F.ring (window_of (traces_of traces.now) row) expression.now }
{
    CheckedRow::new(traces, traces.main.height(), row).value_of(expression)
}

/// The first constraint that is not zero on a row.
fn first_nonzero<F: Field>(
    row: &CheckedRow<'_, F>,
    constraints: &[SymbolicExpression<F>],
) -> Option<usize>
    ensures { MatchOption result
        (Hold F.ring (checked_window row.now) constraints.now)
        (FailsFirst F.ring (checked_window row.now) constraints.now) }
{
    for constraint in 0..constraints.len() {
        if !row.value_of(&constraints[constraint]).is_zero() {
            return Some(constraint);
        }
    }
    None
}

/// A row of traces and the next one, as expressions read them.
#[derive(Drop)]
struct CheckedRow<'a, F> {
    main: RowWindow<'a, F>,
    preprocessed: RowWindow<'a, F>,
    public_values: &'a [F],
    is_first: bool,
    is_last: bool,
}

/// A cell of a row, or zero past its end.
fn cell_or_zero<F: Field>(cells: &[F], index: usize) -> F
    ensures { result ≡ slice_index_or cells.now index F.ring.zero }
{
    if index < cells.len() {
        cells[index]
    } else {
        F::ZERO
    }
}

/// A cell of a window: of its current row at offset 0, of the next one at offset 1; zero at other
/// offsets and past the end of the row.
fn cell_of<F: Field>(window: &RowWindow<'_, F>, offset: usize, index: usize) -> F
    ensures { result ≡ slice_index_or
        (row_at offset window.now.current.now window.now.next.now) index F.ring.zero }
{
    match offset {
        0 => cell_or_zero(window.current_slice(), index),
        1 => cell_or_zero(window.next_slice(), index),
        _ => F::ZERO,
    }
}

impl<'a, F: Field> CheckedRow<'a, F> {
    ghost use Rattle.air_expressions.specs.Meaning.{leaf_value, variable_value};

    /// This row of the traces, of which there are `num_rows`; after the last row comes the first.
    fn new(traces: &Traces<'a, F>, num_rows: usize, row: usize) -> Self
        requires rows { num_rows ≡ height_of (traces_of traces.now) }
        requires row_exists { row < num_rows }
        ensures { checked_window result ≡ window_of (traces_of traces.now) row }
    {
        let next = next_row(row, num_rows);
        let main_trace = traces.main;
        let preprocessed = match traces.preprocessed {
            Some(trace) => RowWindow::from_two_rows(trace.row_slice(row), trace.row_slice(next)),
            None => RowWindow::from_two_rows(&[], &[]),
        };
        CheckedRow {
            main: RowWindow::from_two_rows(main_trace.row_slice(row), main_trace.row_slice(next)),
            preprocessed,
            public_values: traces.public_values,
            is_first: row == 0,
            is_last: row + 1 == num_rows,
        }
    }

    /// The value of a variable.
    fn variable(&self, variable: SymbolicVariable<F>) -> F
        ensures { result ≡ variable_value F.ring (checked_window self.now) variable }
    {
        match variable.entry {
            BaseEntry::Main { offset } => cell_of(&self.main, offset, variable.index),
            BaseEntry::Preprocessed { offset } => {
                cell_of(&self.preprocessed, offset, variable.index)
            }
            BaseEntry::Public => cell_or_zero(self.public_values, variable.index),
        }
    }

    /// The value of a leaf.
    fn leaf(&self, leaf: BaseLeaf<F>) -> F
        ensures { result ≡ leaf_value F.ring (checked_window self.now) leaf }
    {
        match leaf {
            BaseLeaf::Variable(variable) => self.variable(variable),
            BaseLeaf::IsFirstRow => F::from_bool(self.is_first),
            BaseLeaf::IsLastRow => F::from_bool(self.is_last),
            BaseLeaf::IsTransition => F::from_bool(!self.is_last),
            BaseLeaf::Constant(x) => x,
        }
    }

    /// The value of an expression.
    fn value_of(&self, expression: &SymbolicExpression<F>) -> F
        ensures { result ≡ value_at F.ring (checked_window self.now) expression.now }
    {
        match expression {
            SymbolicExpression::Leaf(leaf) => self.leaf(*leaf),
            SymbolicExpression::Add(a, b) => self.value_of(a) + self.value_of(b),
            SymbolicExpression::Sub(a, b) => self.value_of(a) - self.value_of(b),
            SymbolicExpression::Mul(a, b) => self.value_of(a) * self.value_of(b),
            SymbolicExpression::Neg(a) => -self.value_of(a),
        }
    }
}
