//! One row of the traces of an AIR.
ghost use Rattle.std.specs.Prelude.{◌≡◌, ◌<◌, ◌≤◌, length, slice_index_or};
ghost use Rattle.air_expressions.specs.Meaning.{row_at};

use air::{BaseEntry, BaseLeaf, SymbolicExpression, SymbolicVariable, Traces, next_row};
use field::{Field, PrimeCharacteristicRing};
use matrix::{RowWindow, WindowAccess};

/// One row of the traces of an AIR and the next one, as the expressions of its lookups read them.
#[derive(Drop)]
pub(crate) struct TraceRow<'a, F> {
    main: RowWindow<'a, F>,
    preprocessed: RowWindow<'a, F>,
    public_values: &'a [F],
    is_first: bool,
    is_last: bool,
}

/// A cell of a window: of its current row at offset 0, of the next one at offset 1.
#[inline(always)]
fn cell_of<F: Field>(window: &RowWindow<'_, F>, offset: usize, index: usize) -> F
    requires offset { offset ≤ 1 }
    requires current { index < length window.now.current.now }
    requires next { index < length window.now.next.now }
    ensures { result ≡ slice_index_or
        (row_at offset window.now.current.now window.now.next.now) index F.ring.zero }
{
    if offset == 0 {
        window.current_slice()[index]
    } else {
        window.next_slice()[index]
    }
}

impl<'a, F: Field> TraceRow<'a, F> {
    ghost use Rattle.air.specs.Traces.{height_of, layout_of, traces_of, window_of};
    ghost use Rattle.checker_witness.specs.internal.TraceRows.{trace_layout, trace_window};
    ghost use Rattle.air_expressions.specs.Layout.{EntryFits, Fits, LeafFits};
    ghost use Rattle.air_expressions.specs.Meaning.{leaf_value, variable_value};
    ghost use Rattle.air_expressions.specs.Tree.{tree_of};
    ghost use Rattle.lookup_model.specs.Sent.{value};

    /// This row of the traces; after the last row comes the first one. The caller counts the rows,
    /// `num_rows`, once for all of them.
    pub(crate) fn new(traces: &Traces<'a, F>, num_rows: usize, row: usize) -> Self
        requires rows { num_rows ≡ height_of (traces_of traces.now) }
        requires row_exists { row < num_rows }
        ensures window { trace_window result ≡ window_of (traces_of traces.now) row }
        ensures layout { trace_layout result ≡ layout_of (traces_of traces.now) }
    {
        let next = next_row(row, num_rows);
        let main_trace = traces.main;
        let preprocessed = match traces.preprocessed {
            Some(trace) => RowWindow::from_two_rows(trace.row_slice(row), trace.row_slice(next)),
            None => RowWindow::from_two_rows(&[], &[]),
        };
        TraceRow {
            main: RowWindow::from_two_rows(main_trace.row_slice(row), main_trace.row_slice(next)),
            preprocessed,
            public_values: traces.public_values,
            is_first: row == 0,
            is_last: row + 1 == num_rows,
        }
    }

    /// The value of a variable.
    #[inline(always)]
    fn variable(&self, variable: SymbolicVariable<F>) -> F
        requires { EntryFits (trace_layout self.now) variable.entry variable.index }
        ensures { result ≡ variable_value F.ring (trace_window self.now) variable }
    {
        match variable.entry {
            BaseEntry::Main { offset } => cell_of(&self.main, offset, variable.index),
            BaseEntry::Preprocessed { offset } => {
                cell_of(&self.preprocessed, offset, variable.index)
            }
            BaseEntry::Public => self.public_values[variable.index],
        }
    }

    /// The value of a leaf. A variable, which most leaves are, is told from the others by one test.
    #[inline(always)]
    fn leaf(&self, leaf: BaseLeaf<F>) -> F
        requires { LeafFits (trace_layout self.now) leaf }
        ensures { result ≡ leaf_value F.ring (trace_window self.now) leaf }
    {
        match leaf {
            BaseLeaf::Variable(variable) => self.variable(variable),
            _ => self.other_leaf(leaf),
        }
    }

    /// The value of a leaf, which is called where it is no variable.
    #[inline(never)]
    fn other_leaf(&self, leaf: BaseLeaf<F>) -> F
        requires { LeafFits (trace_layout self.now) leaf }
        ensures { result ≡ leaf_value F.ring (trace_window self.now) leaf }
    {
        match leaf {
            BaseLeaf::Variable(variable) => self.variable(variable),
            BaseLeaf::IsFirstRow => F::from_bool(self.is_first),
            BaseLeaf::IsLastRow => F::from_bool(self.is_last),
            BaseLeaf::IsTransition => F::from_bool(!self.is_last),
            BaseLeaf::Constant(x) => x,
        }
    }

    /// The value of an expression. A variable is read in place, without a call.
    #[cycle(value)]
    #[inline(always)]
    pub(crate) fn value_of(&self, expression: &SymbolicExpression<F>) -> F
        requires { Fits (trace_layout self.now) (tree_of expression.now) }
        ensures { result ≡ value F.ring (trace_window self.now) expression.now }
    {
        match expression {
            SymbolicExpression::Leaf(leaf) => self.leaf(*leaf),
            _ => self.node(expression),
        }
    }

    /// The value of an expression, which is called where it is no leaf.
    #[cycle(value)]
    fn node(&self, expression: &SymbolicExpression<F>) -> F
        requires { Fits (trace_layout self.now) (tree_of expression.now) }
        ensures { result ≡ value F.ring (trace_window self.now) expression.now }
    {
        match expression {
            SymbolicExpression::Leaf(leaf) => self.leaf(*leaf),
            SymbolicExpression::Add(a, b) => self.value_of(a) + self.value_of(b),
            SymbolicExpression::Sub(a, b) => self.value_of(a) - self.value_of(b),
            SymbolicExpression::Mul(a, b) => self.value_of(a) * self.value_of(b),
            SymbolicExpression::Neg(a) => -self.value_of(a),
        }
    }
}
