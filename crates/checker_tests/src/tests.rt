//! What the tests share: lookups, traces, and the calls over batches that have to fit.
ghost use Rattle.std.specs.Prelude.{◌≡◌, ◌↔◌, ◌<◌, All, IsTrue, length};

mod batches;
mod chunks;
mod columns;
mod counts;
mod exhaustion;
mod existence;
mod ids;
mod memory;
mod pairs;
mod program;
mod ranges;
mod single;
mod witnesses;

use air_expressions::{BaseEntry, BaseLeaf, Expression, SymbolicExpression, SymbolicVariable};
use checker::{BatchFault, BatchInstance, Witness, check_witness, generate_batch, instances_fit};
use field::{ExtensionField, F7, Field, PrimeCharacteristicRing};
use lookup::{Challenges, Kind, Lookup, LookupError, LookupTerminal};
use matrix::RowMajorMatrix;
use std::alloc::Global;
use std::process::Abort;

/// Fails with this text unless the condition holds.
fn holds(rt: &impl Abort, what: &str, condition: bool) {
    assert!(rt; condition, "{what}");
}

/// A list of these values.
fn list<T: Drop, const N: usize>(rt: &impl Abort, alloc: Global, values: [T; N]) -> Vec<T> {
    Vec::from_array(alloc, values).expect(rt, "memory")
}

/// A list of one value. Over any field, where no size of an array is known, `list` is not proved.
fn alone<T: Drop>(rt: &impl Abort, alloc: Global, value: T) -> Vec<T> {
    let mut values = Vec::new(alloc);
    values.push(value).expect(rt, "memory");
    values
}

/// A cell of the current row of the main trace.
fn cell<F: Field>(index: usize) -> SymbolicExpression<F> {
    SymbolicExpression::Leaf(BaseLeaf::Variable(SymbolicVariable::new(
        BaseEntry::Main { offset: 0 },
        index,
    )))
}

/// A multiplicity: 1, or the negative of a cell.
fn count<F: Field>(rt: &impl Abort, alloc: Global, taken: Option<usize>) -> SymbolicExpression<F> {
    match taken {
        Some(index) => cell::<F>(index).neg(alloc).expect(rt, "memory"),
        None => SymbolicExpression::constant(F::ONE),
    }
}

/// The lookup in column 0 of the tuples of one cell each, with these multiplicities.
fn lookup<F: Field, const N: usize>(
    rt: &impl Abort,
    alloc: Global,
    bus: Option<&str>,
    branches: [(usize, Option<usize>); N],
) -> Lookup<F> {
    let mut elements = Vec::new(alloc);
    let mut multiplicities = Vec::new(alloc);
    for (index, taken) in branches.as_slice() {
        elements
            .push(alone(rt, alloc, cell(*index)))
            .expect(rt, "memory");
        multiplicities
            .push(count(rt, alloc, *taken))
            .expect(rt, "memory");
    }
    let kind = match bus {
        Some(name) => Kind::Global(String::from_str(alloc, name).expect(rt, "memory")),
        None => Kind::Local,
    };
    Lookup {
        kind,
        elements,
        multiplicities,
        count_weight: 1,
        column: 0,
        flags: None,
    }
}

/// The local lookup of cell 0 with count 1, and of cell 1 with the count of cell 2 taken away.
fn range<F: Field>(rt: &impl Abort, alloc: Global) -> Lookup<F> {
    lookup(rt, alloc, None, [(0, None), (1, Some(2))])
}

/// A matrix of these numbers, row after row.
fn trace<F: Field>(
    rt: &impl Abort,
    alloc: Global,
    numbers: &[u32],
    width: usize,
) -> RowMajorMatrix<F> {
    let mut values = Vec::new(alloc);
    for number in numbers {
        values.push(F::from_u32(*number)).expect(rt, "memory");
    }
    assert!(rt; width > 0 && values.len() % width == 0);
    RowMajorMatrix::new(values, width)
}

/// The lookup of a group on a bus: for each branch a flag and a key of one cell, with this count.
fn group<F: Field, const N: usize>(
    rt: &impl Abort,
    alloc: Global,
    branches: [(usize, usize); N],
    count: F,
) -> Lookup<F> {
    let mut flags = Vec::new(alloc);
    let mut elements = Vec::new(alloc);
    let mut multiplicities = Vec::new(alloc);
    for (flag, key) in branches.as_slice() {
        flags.push(cell(*flag)).expect(rt, "memory");
        elements
            .push(alone(rt, alloc, cell(*key)))
            .expect(rt, "memory");
        multiplicities
            .push(SymbolicExpression::constant(count))
            .expect(rt, "memory");
    }
    Lookup {
        kind: Kind::Global(String::from_str(alloc, "keys").expect(rt, "memory")),
        elements,
        multiplicities,
        count_weight: 1,
        column: 0,
        flags: Some(flags),
    }
}

/// Whether values are these numbers.
fn are_numbers<F: Field>(values: &[F], numbers: &[u32]) -> bool {
    for (value, number) in values.iter().zip(numbers) {
        if *value != F::from_u32(*number) {
            return false;
        }
    }
    values.len() == numbers.len()
}

/// An AIR of a batch without preprocessed trace or public values.
fn instance<'a, F: Field>(
    lookups: &'a [Lookup<F>],
    main: &'a RowMajorMatrix<F>,
    ids: &'a [usize],
) -> BatchInstance<'a, F> {
    BatchInstance {
        lookups,
        main,
        preprocessed: None,
        public_values: &[],
        ids,
    }
}

/// The table of one pair of challenges, for tuples of one element.
fn table(rt: &impl Abort, alloc: Global, alpha: u32, beta: u32, ids: usize) -> Challenges<F7> {
    Challenges::new(alloc, F7::from_u32(alpha), F7::from_u32(beta), 1, ids).expect(rt, "memory")
}

fn are_below(ids: &[usize], count: usize) -> bool
    ensures { IsTrue result ↔ All (λ id. id < count) ids.now }
{
    ids.iter().all(|id| *id < count)
}

/// Whether there is an id for each lookup.
fn have_ids<F: Field>(instances: &[BatchInstance<'_, F>]) -> bool
    ensures { IsTrue result ↔ All (λ b. length b.ids.now ≡ length b.lookups.now) instances.now }
{
    instances
        .iter()
        .all(|instance| instance.ids.len() == instance.lookups.len())
}

fn have_prefixes<F: Field>(instances: &[BatchInstance<'_, F>], count: usize) -> bool
    ensures { IsTrue result ↔ All (λ b. All (λ id. id < count) b.ids.now) instances.now }
{
    instances
        .iter()
        .all(|instance| are_below(instance.ids, count))
}

/// What generation makes of a batch, which has to fit.
fn generate<F: Field, EF: ExtensionField<F>>(
    rt: &impl Abort,
    alloc: Global,
    instances: &[BatchInstance<'_, F>],
    challenges: &Challenges<EF>,
) -> Result<Witness<EF>, BatchFault> {
    assert!(rt; instances_fit(instances));
    assert!(rt; have_prefixes(instances, challenges.bus_prefix.len()));
    generate_batch(alloc, instances, challenges)
}

/// What the check says of a witness of a batch, which has to fit.
fn checked<F: Field, EF: ExtensionField<F>>(
    rt: &impl Abort,
    alloc: Global,
    instances: &[BatchInstance<'_, F>],
    challenges: &Challenges<EF>,
    aux: &[RowMajorMatrix<EF>],
    terminals: &[Option<LookupTerminal<EF>>],
) -> Result<(), LookupError> {
    assert!(rt; instances_fit(instances));
    assert!(rt; have_prefixes(instances, challenges.bus_prefix.len()));
    assert!(rt; aux.len() == instances.len() && terminals.len() == instances.len());
    check_witness(alloc, instances, challenges, aux, terminals)
}

/// A terminal.
fn terminal(value: u32) -> Option<LookupTerminal<F7>> {
    Some(LookupTerminal(F7::from_u32(value)))
}

/// Whether a witness has this auxiliary trace and this terminal for an AIR.
fn has_result(witness: &Witness<F7>, air: usize, cells: &[u32], value: u32) -> bool {
    match (witness.aux.get(air), witness.terminals.get(air)) {
        (Some(aux), Some(Some(terminal))) => {
            are_numbers(aux.values(), cells) && terminal.0 == F7::from_u32(value)
        }
        _ => false,
    }
}

/// The answer to a witness that was generated.
fn rechecked<F: Field, EF: ExtensionField<F>>(
    rt: &impl Abort,
    alloc: Global,
    instances: &[BatchInstance<'_, F>],
    challenges: &Challenges<EF>,
    made: &Witness<EF>,
) -> Result<(), LookupError> {
    let (aux, terminals) = (made.aux.as_slice(), made.terminals.as_slice());
    checked(rt, alloc, instances, challenges, aux, terminals)
}

/// Fails unless the generated witness has these cells and terminals, for the AIRs from 0 on, and this is
/// the answer to it.
fn expect_made(
    rt: &impl Abort,
    alloc: Global,
    instances: &[BatchInstance<'_, F7>],
    challenges: &Challenges<F7>,
    results: &[(&[u32], u32)],
    answer: Result<(), LookupError>,
) {
    let made = generate(rt, alloc, instances, challenges).expect(rt, "no fault");
    for (air, (cells, terminal)) in results.iter().enumerate() {
        let right = has_result(&made, air, cells, *terminal);
        holds(rt, "the result", right);
    }
    let own = rechecked(rt, alloc, instances, challenges, &made);
    holds(rt, "the answer", own == answer);
}
