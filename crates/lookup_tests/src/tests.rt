//! What the tests share: expressions, lookups and traces.
mod bus_table;
mod debug;
mod extraction;
mod fit;
mod guards;
mod json;
mod packing;
mod refusals;
mod sets;

use air::{BaseEntry, BaseLeaf, Expression, SymbolicExpression, SymbolicVariable};
use field::{Field, PrimeCharacteristicRing};
use lookup::{Kind, Lookup};
use matrix::RowMajorMatrix;
use std::alloc::Global;
use std::process::Abort;

/// Fails with this text unless the condition holds.
fn holds(rt: &impl Abort, what: &str, condition: bool) {
    assert!(rt; condition, "{what}");
}

/// A list of these values.
fn list<T: Drop, const N: usize>(rt: &impl Abort, alloc: Global, values: [T; N]) -> Vec<T> {
    Vec::from_array(alloc, values).expect(rt, "memory")
}

/// A list of one value. Over any field, where no size of an array is known, `list` is not proved.
fn alone<T: Drop>(rt: &impl Abort, alloc: Global, value: T) -> Vec<T> {
    let mut values = Vec::new(alloc);
    values.push(value).expect(rt, "memory");
    values
}

/// A text of its own.
fn text(rt: &impl Abort, alloc: Global, text: &str) -> String {
    String::from_str(alloc, text).expect(rt, "memory")
}

/// A cell of the current row of the main trace.
fn cell<F: Field>(index: usize) -> SymbolicExpression<F> {
    SymbolicExpression::Leaf(BaseLeaf::Variable(SymbolicVariable::new(
        BaseEntry::Main { offset: 0 },
        index,
    )))
}

/// The constant 1.
fn one<F: Field>() -> SymbolicExpression<F> {
    SymbolicExpression::constant(F::ONE)
}

/// A local lookup of these tuples, in this column.
fn local<F: Field>(
    elements: Vec<Vec<SymbolicExpression<F>>>,
    multiplicities: Vec<SymbolicExpression<F>>,
    column: usize,
) -> Lookup<F> {
    Lookup {
        kind: Kind::Local,
        elements,
        multiplicities,
        count_weight: 1,
        column,
        flags: None,
    }
}

/// A local lookup of one tuple of the first `width` cells with count 1.
fn single<F: Field>(rt: &impl Abort, alloc: Global, width: usize, column: usize) -> Lookup<F> {
    let mut tuple = Vec::new(alloc);
    for index in 0..width {
        tuple.push(cell(index)).expect(rt, "memory");
    }
    local(alone(rt, alloc, tuple), alone(rt, alloc, one()), column)
}

/// Whether a lookup stands on this bus, or is local if that is empty.
fn is_on<F>(lookup: &Lookup<F>, bus: &str) -> bool {
    match &lookup.kind {
        Kind::Global(name) => name.as_str() == bus,
        Kind::Local => bus.is_empty(),
    }
}

/// A matrix of these numbers, row after row.
fn trace<F: PrimeCharacteristicRing>(
    rt: &impl Abort,
    alloc: Global,
    numbers: &[u32],
    width: usize,
) -> RowMajorMatrix<F> {
    let mut values = Vec::new(alloc);
    for number in numbers {
        values.push(F::from_u32(*number)).expect(rt, "memory");
    }
    assert!(rt; width > 0 && values.len() % width == 0);
    RowMajorMatrix::new(values, width)
}
