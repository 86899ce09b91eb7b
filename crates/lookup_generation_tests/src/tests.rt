//! What the tests share: expressions, lookups, traces, and generation over them.
mod chunks;
mod comparison;
mod degrees;
mod domains;
mod evaluation;
mod exclusive;
mod generation;
mod ranges;
mod rows;
mod shapes;
mod windows;

use air::{AirLayout, BaseEntry, BaseLeaf, Expression, SymbolicExpression, SymbolicVariable};
use field::{ExtensionField, Field, PrimeCharacteristicRing};
use lookup::{Kind, LogUpGadget, Lookup, LookupError, LookupProtocol, LookupTerminal, fits};
use matrix::RowMajorMatrix;
use std::alloc::Global;
use std::process::Abort;

/// Fails with this text unless the condition holds.
fn holds(rt: &impl Abort, what: &str, condition: bool) {
    assert!(rt; condition, "{what}");
}

/// A list of these values.
fn list<T: Drop, const N: usize>(rt: &impl Abort, alloc: Global, values: [T; N]) -> Vec<T> {
    Vec::from_array(alloc, values).expect(rt, "memory")
}

/// A list of one value.
fn alone<T: Drop>(rt: &impl Abort, alloc: Global, value: T) -> Vec<T> {
    let mut values = Vec::new(alloc);
    values.push(value).expect(rt, "memory");
    values
}

/// A list of two values.
fn pair<T: Drop>(rt: &impl Abort, alloc: Global, first: T, second: T) -> Vec<T> {
    let mut values = alone(rt, alloc, first);
    values.push(second).expect(rt, "memory");
    values
}

/// A cell of the current row of the main trace.
fn cell<F: Field>(index: usize) -> SymbolicExpression<F> {
    SymbolicExpression::Leaf(BaseLeaf::Variable(SymbolicVariable::new(
        BaseEntry::Main { offset: 0 },
        index,
    )))
}

/// The constant 1.
fn one<F: Field>() -> SymbolicExpression<F> {
    SymbolicExpression::constant(F::ONE)
}

/// A local lookup of these tuples, in this column.
fn local<F: Field>(
    elements: Vec<Vec<SymbolicExpression<F>>>,
    multiplicities: Vec<SymbolicExpression<F>>,
    column: usize,
) -> Lookup<F> {
    Lookup {
        kind: Kind::Local,
        elements,
        multiplicities,
        count_weight: 1,
        column,
        flags: None,
    }
}

/// A local lookup of one tuple of the first `width` cells with count 1.
fn single<F: Field>(rt: &impl Abort, alloc: Global, width: usize, column: usize) -> Lookup<F> {
    let mut tuple = Vec::new(alloc);
    for index in 0..width {
        tuple.push(cell(index)).expect(rt, "memory");
    }
    local(alone(rt, alloc, tuple), alone(rt, alloc, one()), column)
}

/// The lookup of the range machine: cell 0 with count 1, and cell 1 with the count of cell 2 taken
/// away.
fn range<F: Field>(rt: &impl Abort, alloc: Global, column: usize) -> Lookup<F> {
    let read = alone(rt, alloc, cell(0));
    let provided = alone(rt, alloc, cell(1));
    let taken = cell::<F>(2).neg(alloc).expect(rt, "memory");
    let multiplicities = pair(rt, alloc, one(), taken);
    local(pair(rt, alloc, read, provided), multiplicities, column)
}

/// An exclusive lookup in this column: each branch takes a cell under the flag of the cell before
/// it, with count 1.
fn group<F: Field>(rt: &impl Abort, alloc: Global, branches: u8, column: usize) -> Lookup<F> {
    let mut elements = Vec::new(alloc);
    let mut multiplicities = Vec::new(alloc);
    let mut flags = Vec::new(alloc);
    for branch in 0..branches {
        let index = 2 * usize::from(branch);
        elements
            .push(alone(rt, alloc, cell(index + 1)))
            .expect(rt, "memory");
        multiplicities.push(one()).expect(rt, "memory");
        flags.push(cell(index)).expect(rt, "memory");
    }
    let mut lookup = local(elements, multiplicities, column);
    lookup.flags = Some(flags);
    lookup
}

/// A matrix of these numbers, row after row.
fn trace<F: PrimeCharacteristicRing>(
    rt: &impl Abort,
    alloc: Global,
    numbers: &[u32],
    width: usize,
) -> RowMajorMatrix<F> {
    let mut values = Vec::new(alloc);
    for number in numbers {
        values.push(F::from_u32(*number)).expect(rt, "memory");
    }
    assert!(rt; width > 0 && values.len() % width == 0);
    RowMajorMatrix::new(values, width)
}

/// Whether values are these numbers.
fn are_numbers<F: Field>(values: &[F], numbers: &[u32]) -> bool {
    for (value, number) in values.iter().zip(numbers) {
        if *value != F::from_u32(*number) {
            return false;
        }
    }
    values.len() == numbers.len()
}

/// Whether all values are zero.
fn are_zero<F: Field>(values: &[F]) -> bool {
    for value in values {
        if *value != F::ZERO {
            return false;
        }
    }
    true
}

/// What generation makes: the auxiliary trace, and the terminal where there is one.
#[derive(Drop)]
struct Made<EF> {
    auxiliary: RowMajorMatrix<EF>,
    terminal: Option<EF>,
}

impl<EF> Made<EF> {
    /// What these parts of its answer are.
    fn new(auxiliary: RowMajorMatrix<EF>, terminal: Option<LookupTerminal<EF>>) -> Self {
        let terminal = match terminal {
            Some(LookupTerminal(value)) => Some(value),
            None => None,
        };
        Made {
            auxiliary,
            terminal,
        }
    }
}

/// What generation makes of lookups over traces that they have to fit.
fn generate_over<'a, F: Field, EF: ExtensionField<F>>(
    rt: &impl Abort,
    alloc: Global,
    main: &'a RowMajorMatrix<F>,
    preprocessed: Option<&'a RowMajorMatrix<F>>,
    public_values: &[F],
    lookups: &[Lookup<F>],
    challenges: &[EF],
) -> Result<Made<EF>, LookupError> {
    if let Some(trace) = preprocessed {
        assert!(rt; trace.height() == main.height());
    }
    let layout = AirLayout::of_traces(main, preprocessed, public_values);
    assert!(rt; fits(lookups, &layout));
    assert!(rt; lookups.len() <= challenges.len() / 2);
    let (auxiliary, terminal) = LogUpGadget::new().generate_permutation(
        alloc,
        main,
        preprocessed,
        public_values,
        lookups,
        challenges,
    )?;
    Ok(Made::new(auxiliary, terminal))
}

/// The same over a main trace alone.
fn generate<F: Field, EF: ExtensionField<F>>(
    rt: &impl Abort,
    alloc: Global,
    main: &RowMajorMatrix<F>,
    lookups: &[Lookup<F>],
    challenges: &[EF],
) -> Result<Made<EF>, LookupError> {
    let no_values: Vec<F> = Vec::new(alloc);
    generate_over(
        rt,
        alloc,
        main,
        None,
        no_values.as_slice(),
        lookups,
        challenges,
    )
}
