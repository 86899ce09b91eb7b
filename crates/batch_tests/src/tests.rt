//! What the tests share: sets of lookups, traces, and plans of them.
mod counts;
mod example;
mod given_ids;
mod grids;
mod numbering;
mod proving;
mod refusals;

use air::{BaseEntry, BaseLeaf, Expression, SymbolicExpression, SymbolicVariable};
use batch::{BatchError, BatchPlan, BatchTrace, Witness};
use field::{F7, Field, PrimeCharacteristicRing};
use lookup::{Kind, Lookup, LookupTerminal, Lookups};
use matrix::RowMajorMatrix;
use std::alloc::Global;
use std::process::Abort;

/// The name of a lookup's bus, none if it is local, and the widths of its tuples.
type Shape<'a> = (Option<&'a str>, &'a [usize]);

/// Fails with this text unless the condition holds.
fn holds(rt: &impl Abort, what: &str, condition: bool) {
    assert!(rt; condition, "{what}");
}

/// A cell of the current row of the main trace.
fn cell<F: Field>(index: usize) -> SymbolicExpression<F> {
    SymbolicExpression::Leaf(BaseLeaf::Variable(SymbolicVariable::new(
        BaseEntry::Main { offset: 0 },
        index,
    )))
}

fn kind(rt: &impl Abort, alloc: Global, bus: Option<&str>) -> Kind {
    match bus {
        Some(name) => Kind::Global(String::from_str(alloc, name).expect(rt, "memory")),
        None => Kind::Local,
    }
}

/// A tuple of so many copies of cell 0.
fn tuple<F: Field>(rt: &impl Abort, alloc: Global, width: usize) -> Vec<SymbolicExpression<F>> {
    let mut elements = Vec::new(alloc);
    for _ in 0..width {
        elements.push(cell(0)).expect(rt, "memory");
    }
    elements
}

/// A lookup whose tuples have these widths, with counts 1.
fn shaped<F: Field>(
    rt: &impl Abort,
    alloc: Global,
    shape: Shape<'_>,
    weight: u64,
    column: usize,
) -> Lookup<F> {
    let mut elements = Vec::new(alloc);
    let mut multiplicities = Vec::new(alloc);
    for width in shape.1 {
        elements.push(tuple(rt, alloc, *width)).expect(rt, "memory");
        multiplicities
            .push(SymbolicExpression::constant(F::ONE))
            .expect(rt, "memory");
    }
    Lookup {
        kind: kind(rt, alloc, shape.0),
        elements,
        multiplicities,
        count_weight: weight,
        column,
        flags: None,
    }
}

/// A set of such lookups, all of one weight.
fn set<F: Field>(rt: &impl Abort, alloc: Global, shapes: &[Shape<'_>], weight: u64) -> Lookups<F> {
    let mut records = Vec::new(alloc);
    for (column, shape) in shapes.iter().enumerate() {
        records
            .push(shaped(rt, alloc, *shape, weight, column))
            .expect(rt, "memory");
    }
    Lookups::from_records(alloc, records).expect(rt, "well formed")
}

/// AIRs with such sets of lookups.
fn airs_of<F: Field>(
    rt: &impl Abort,
    alloc: Global,
    sets: &[&[Shape<'_>]],
    weight: u64,
) -> Vec<Lookups<F>> {
    let mut airs = Vec::new(alloc);
    for shapes in sets {
        airs.push(set(rt, alloc, shapes, weight))
            .expect(rt, "memory");
    }
    airs
}

/// A list of these numbers.
fn list_of(rt: &impl Abort, alloc: Global, numbers: &[usize]) -> Vec<usize> {
    let mut list = Vec::new(alloc);
    list.extend_from_slice(numbers).expect(rt, "memory");
    list
}

/// The plan of sets of such lookups.
fn plan<F: Field>(
    rt: &impl Abort,
    alloc: Global,
    sets: &[&[Shape<'_>]],
    weight: u64,
    heights: &[usize],
) -> Result<BatchPlan<F>, BatchError> {
    let airs = airs_of(rt, alloc, sets, weight);
    BatchPlan::new(alloc, airs, list_of(rt, alloc, heights))
}

/// A matrix of these numbers, row after row.
fn trace<F: Field>(
    rt: &impl Abort,
    alloc: Global,
    numbers: &[u32],
    width: usize,
) -> RowMajorMatrix<F> {
    let mut values = Vec::new(alloc);
    for number in numbers {
        values.push(F::from_u32(*number)).expect(rt, "memory");
    }
    assert!(rt; width > 0 && values.len() % width == 0);
    RowMajorMatrix::new(values, width)
}

/// A main trace alone.
fn alone<F>(main: &RowMajorMatrix<F>) -> BatchTrace<'_, F> {
    BatchTrace {
        main,
        preprocessed: None,
        public_values: &[],
    }
}

/// Whether an AIR's auxiliary trace and terminal are these.
fn has_result<EF: Field>(witness: &Witness<EF>, air: usize, cells: &[EF], terminal: EF) -> bool {
    match (witness.aux.get(air), witness.terminals.get(air)) {
        (Some(aux), Some(Some(LookupTerminal(value)))) => {
            aux.values() == cells && *value == terminal
        }
        _ => false,
    }
}
