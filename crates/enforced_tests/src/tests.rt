//! What the tests share: lookups of a memory, and the constraints of its cells.
mod constraints;
mod extracted;
mod fixed;
mod machines;
mod many;
mod plans;
mod provided;
mod random;
mod recognised;
mod shown;
mod weights;

use air_expressions::{BaseEntry, BaseLeaf, Expression, SymbolicExpression, SymbolicVariable};
use field::{F7, PrimeCharacteristicRing};
use lookup::{Kind, Lookup, Lookups};
use std::alloc::Global;
use std::process::Abort;

/// Whether a row is one of the memory, and whether it writes.
const IS_REAL: usize = 0;

const IS_WRITE: usize = 1;
/// The address of a row.
const ADDRESS: usize = 2;

/// Fails with this text unless the condition holds.
fn holds(rt: &impl Abort, what: &str, condition: bool) {
    assert!(rt; condition, "{what}");
}

/// A cell of the current row of the main trace.
fn cell(index: usize) -> SymbolicExpression<F7> {
    SymbolicExpression::Leaf(BaseLeaf::Variable(SymbolicVariable::new(
        BaseEntry::Main { offset: 0 },
        index,
    )))
}

fn one() -> SymbolicExpression<F7> {
    SymbolicExpression::constant(F7::ONE)
}

/// `1 - cell`.
fn not(rt: &impl Abort, alloc: Global, index: usize) -> SymbolicExpression<F7> {
    one().sub(alloc, cell(index)).expect(rt, "memory")
}

fn product(
    rt: &impl Abort,
    alloc: Global,
    a: SymbolicExpression<F7>,
    b: SymbolicExpression<F7>,
) -> SymbolicExpression<F7> {
    a.mul(alloc, b).expect(rt, "memory")
}

/// A list of these.
fn list<T: Drop, const N: usize>(rt: &impl Abort, alloc: Global, items: [T; N]) -> Vec<T> {
    Vec::from_array(alloc, items).expect(rt, "memory")
}

/// `cell * (cell - 1)`, which is zero just where the cell is zero or one.
fn is_bit(rt: &impl Abort, alloc: Global, index: usize) -> SymbolicExpression<F7> {
    let less = cell(index).sub(alloc, one()).expect(rt, "memory");
    product(rt, alloc, cell(index), less)
}

/// The bits of a memory: that a row is real, and that it writes.
fn bits(rt: &impl Abort, alloc: Global) -> Vec<SymbolicExpression<F7>> {
    let real = is_bit(rt, alloc, IS_REAL);
    let write = is_bit(rt, alloc, IS_WRITE);
    list(rt, alloc, [real, write])
}

/// The address on the bus `memory`, with two branches: `is_real * is_write` sends it once, and
/// `is_real * (1 - is_write)` too. In this column.
fn group(rt: &impl Abort, alloc: Global, column: usize) -> Lookup<F7> {
    let writes = product(rt, alloc, cell(IS_REAL), cell(IS_WRITE));
    let reads = product(rt, alloc, cell(IS_REAL), not(rt, alloc, IS_WRITE));
    let written = list(rt, alloc, [cell(ADDRESS)]);
    let read = list(rt, alloc, [cell(ADDRESS)]);
    Lookup {
        kind: Kind::Global(String::from_str(alloc, "memory").expect(rt, "memory")),
        elements: list(rt, alloc, [written, read]),
        multiplicities: list(rt, alloc, [one(), one()]),
        count_weight: 1,
        column,
        flags: Some(list(rt, alloc, [writes, reads])),
    }
}

/// The address in a local lookup, `is_real` times, in this column. It has no flags.
fn local(rt: &impl Abort, alloc: Global, column: usize) -> Lookup<F7> {
    let tuple = list(rt, alloc, [cell(ADDRESS)]);
    Lookup {
        kind: Kind::Local,
        elements: list(rt, alloc, [tuple]),
        multiplicities: list(rt, alloc, [cell(IS_REAL)]),
        count_weight: 1,
        column,
        flags: None,
    }
}

/// The lookups of one AIR.
fn set(rt: &impl Abort, alloc: Global, records: Vec<Lookup<F7>>) -> Lookups<F7> {
    Lookups::from_records(alloc, records).expect(rt, "well formed")
}
