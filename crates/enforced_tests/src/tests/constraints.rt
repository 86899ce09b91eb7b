//! Constraints on the rows of traces.
use super::holds;
use air::Traces;
use air_constraints::{ConstraintFault, check_constraints, value_on_row};
use air_expressions::{BaseEntry, BaseLeaf, Expression, SymbolicExpression, SymbolicVariable};
use field::F7;
use matrix::RowMajorMatrix;
use std::alloc::{AllocError, Global};

type Base = SymbolicExpression<F7>;

/// A trace of so many columns.
pub(super) fn trace_of(alloc: Global, numbers: &[u32], width: usize) -> Option<RowMajorMatrix<F7>> {
    let mut values = Vec::new(alloc);
    for number in numbers {
        values.push(F7::new(*number)).ok()?;
    }
    if width == 0 || values.len() % width != 0 {
        return None;
    }
    Some(RowMajorMatrix::new(values, width))
}

/// A cell of the current row at offset 0, of the next one at 1.
fn cell(offset: usize, index: usize) -> Base {
    SymbolicVariable::new(BaseEntry::Main { offset }, index).into()
}

fn selector(leaf: BaseLeaf<F7>) -> Base {
    SymbolicExpression::Leaf(leaf)
}

/// Column 0 begins with 0 and grows by column 1, which is a bit.
fn steps(alloc: Global) -> Result<Vec<Base>, AllocError> {
    let begins = selector(BaseLeaf::IsFirstRow).mul(alloc, cell(0, 0))?;
    let grown = cell(1, 0).sub(alloc, cell(0, 0))?.sub(alloc, cell(0, 1))?;
    let grows = selector(BaseLeaf::IsTransition).mul(alloc, grown)?;
    let less = cell(0, 1).sub(alloc, Base::constant(F7::new(1)))?;
    let bit = cell(0, 1).mul(alloc, less)?;
    let mut constraints = Vec::new(alloc);
    constraints.push(begins)?;
    constraints.push(grows)?;
    constraints.push(bit)?;
    Ok(constraints)
}

/// What is found of the first `count` constraints on a trace of two columns: `None` where they hold.
fn fault_of(alloc: Global, values: &[u32], count: usize) -> Option<Option<ConstraintFault>> {
    let main = trace_of(alloc, values, 2)?;
    let constraints = steps(alloc).ok()?;
    let traces = Traces {
        main: &main,
        preprocessed: None,
        public_values: &[],
    };
    Some(check_constraints(constraints.get(..count)?, &traces).err())
}

fn fails_at(row: usize, constraint: usize) -> Option<Option<ConstraintFault>> {
    Some(Some(ConstraintFault { row, constraint }))
}

#[test]
fn constraints_hold_or_the_first_fault_is_named(rt: HostRuntime) {
    let alloc = rt.alloc();
    holds(
        &rt,
        "all hold",
        fault_of(alloc, &[0, 1, 1, 0, 1, 1], 3) == Some(None),
    );
    // The sum of the last row is not followed by the first row.
    holds(&rt, "one row", fault_of(alloc, &[0, 1], 3) == Some(None));
    holds(&rt, "no rows", fault_of(alloc, &[], 3) == Some(None));
    holds(
        &rt,
        "no constraints",
        fault_of(alloc, &[3, 3], 0) == Some(None),
    );
    holds(
        &rt,
        "begins with 2",
        fault_of(alloc, &[2, 1, 3, 0], 3) == fails_at(0, 0),
    );
    holds(
        &rt,
        "two instead of one",
        fault_of(alloc, &[0, 1, 2, 1], 3) == fails_at(0, 1),
    );
    holds(
        &rt,
        "no bit",
        fault_of(alloc, &[0, 1, 1, 2, 3, 1], 3) == fails_at(1, 2),
    );
    holds(
        &rt,
        "no bit, not asked",
        fault_of(alloc, &[0, 1, 1, 2, 3, 1], 2) == Some(None),
    );
    // Row 1 has faults 1 and 2, and row 2 has fault 2.
    holds(
        &rt,
        "several",
        fault_of(alloc, &[0, 1, 1, 3, 3, 4], 3) == fails_at(1, 1),
    );
}

/// The value of a cell on row 1 of a trace of two rows and two columns.
fn value_of(alloc: Global, cell: &Base) -> Option<F7> {
    let main = trace_of(alloc, &[1, 2, 3, 4], 2)?;
    let traces = Traces {
        main: &main,
        preprocessed: None,
        public_values: &[],
    };
    if main.height() == 2 {
        Some(value_on_row(cell, &traces, 1))
    } else {
        None
    }
}

#[test]
fn values_are_of_the_row_and_zero_beside_it(rt: HostRuntime) {
    let alloc = rt.alloc();
    let last = selector(BaseLeaf::IsLastRow);
    holds(
        &rt,
        "this row",
        value_of(alloc, &cell(0, 1)) == Some(F7::new(4)),
    );
    holds(
        &rt,
        "the first row is next",
        value_of(alloc, &cell(1, 0)) == Some(F7::new(1)),
    );
    holds(
        &rt,
        "the last row",
        value_of(alloc, &last) == Some(F7::new(1)),
    );
    holds(
        &rt,
        "no such column",
        value_of(alloc, &cell(0, 2)) == Some(F7::new(0)),
    );
    holds(
        &rt,
        "no such row",
        value_of(alloc, &cell(2, 0)) == Some(F7::new(0)),
    );
}
