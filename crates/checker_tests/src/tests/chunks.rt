//! Witnesses with spoiled cells, of more rows than a chunk has and of few: the row that is named.
//!
//! A cell is spoiled by one more. A spoiled fraction breaks the constraint of its lookup on its own row,
//! whose denominator is not zero. A spoiled accumulator breaks the step that leads to it, on the row
//! before; on the first row it breaks the start.
use super::ranges::until;
use super::{alone, cell, checked, generate, group, holds, instance, list, range, trace};
use air::{Expression, SymbolicExpression};
use checker::Witness;
use field::{F7, Field, PrimeCharacteristicRing};
use field_monty::{BabyBear, BabyBear4};
use lookup::{Challenges, Lookup, LookupError, LookupTerminal};
use matrix::RowMajorMatrix;
use std::alloc::Global;
use std::process::Abort;

/// The last of more rows than a chunk has.
const LAST: usize = 1029;

/// One AIR with an id for each lookup.
#[derive(Drop)]
struct Air {
    main: RowMajorMatrix<BabyBear>,
    lookups: Vec<Lookup<BabyBear>>,
    ids: Vec<usize>,
}

/// A table of challenges for tuples of four.
fn table(rt: &impl Abort, alloc: Global) -> Challenges<BabyBear4> {
    let alpha = BabyBear4::new([9, 2, 6, 5].map(BabyBear::new));
    let beta = BabyBear4::new([3, 1, 4, 15].map(BabyBear::new));
    Challenges::new(alloc, alpha, beta, 4, 4).expect(rt, "memory")
}

/// What generation makes of the AIR.
fn made(
    rt: &impl Abort,
    alloc: Global,
    air: &Air,
    challenges: &Challenges<BabyBear4>,
) -> Witness<BabyBear4> {
    let instances = [instance(air.lookups.as_slice(), &air.main, air.ids.as_slice())];
    generate(rt, alloc, instances.as_slice(), challenges).expect(rt, "no fault")
}

/// The answer to this auxiliary trace, with this terminal.
fn answer(
    rt: &impl Abort,
    alloc: Global,
    air: &Air,
    challenges: &Challenges<BabyBear4>,
    aux: RowMajorMatrix<BabyBear4>,
    terminal: Option<LookupTerminal<BabyBear4>>,
) -> Result<(), LookupError> {
    let instances = [instance(air.lookups.as_slice(), &air.main, air.ids.as_slice())];
    let (aux, terminals) = ([aux], [terminal]);
    let (aux, terminals) = (aux.as_slice(), terminals.as_slice());
    checked(rt, alloc, instances.as_slice(), challenges, aux, terminals)
}

/// The auxiliary trace with one more in each of these cells, by row and column.
fn spoiled<EF: Field>(
    rt: &impl Abort,
    alloc: Global,
    made: &Witness<EF>,
    cells: &[(usize, usize)],
) -> RowMajorMatrix<EF> {
    let Some(aux) = made.aux.first() else {
        panic!(rt; "no auxiliary trace")
    };
    let width = aux.width();
    let mut values = Vec::new(alloc);
    values.extend_from_slice(aux.values()).expect(rt, "memory");
    for (row, column) in cells {
        let index = row.saturating_mul(width).saturating_add(*column);
        match values.get_mut(index) {
            Some(cell) => *cell = *cell + EF::ONE,
            None => panic!(rt; "no such cell"),
        }
    }
    assert!(rt; width > 0 && values.len() % width == 0);
    RowMajorMatrix::new(values, width)
}

/// The terminal, plus this.
fn terminal<EF: Field>(
    rt: &impl Abort,
    made: &Witness<EF>,
    more: EF,
) -> Option<LookupTerminal<EF>> {
    match made.terminals.first() {
        Some(Some(LookupTerminal(value))) => Some(LookupTerminal(*value + more)),
        _ => panic!(rt; "no terminal"),
    }
}

/// Spoiled cells, by row and column, and the row that has to be named. Column 0 is the accumulator.
const SPOILED: [(&[(usize, usize)], usize); 17] = [
    (&[(0, 0)], 0),
    (&[(1023, 0)], 1022),
    (&[(1024, 0)], 1023),
    (&[(1025, 0)], 1024),
    (&[(LAST, 0)], 1028),
    (&[(0, 1)], 0),
    (&[(1023, 1)], 1023),
    (&[(1024, 1)], 1024),
    (&[(1025, 1)], 1025),
    (&[(LAST, 1)], LAST),
    (&[(1024, 1), (1024, 2)], 1024),
    (&[(1023, 2)], 1023),
    (&[(1025, 1), (1023, 2)], 1023),
    (&[(1022, 1), (1023, 1)], 1022),
    (&[(LAST, 2), (0, 1)], 0),
    (&[(1025, 0), (1023, 2)], 1023),
    (&[(1024, 0), (1024, 1)], 1023),
];

/// Fails unless the generated witness is accepted and each spoiled one is refused at its row, and with
/// a spoiled terminal at the last row.
fn names_the_rows(
    rt: &impl Abort,
    alloc: Global,
    air: &Air,
    cases: &[(&[(usize, usize)], usize)],
    last: usize,
) {
    let challenges = table(rt, alloc);
    let witness = made(rt, alloc, air, &challenges);
    let zero = terminal(rt, &witness, BabyBear4::ZERO);
    let sound = spoiled(rt, alloc, &witness, &[]);
    let accepted = answer(rt, alloc, air, &challenges, sound, zero);
    holds(rt, "accepted", accepted.is_ok());
    for (cells, row) in cases {
        let aux = spoiled(rt, alloc, &witness, cells);
        let zero = terminal(rt, &witness, BabyBear4::ZERO);
        let refused = answer(rt, alloc, air, &challenges, aux, zero);
        let failed = LookupError::ConstraintFailed { air: 0, row: *row };
        holds(rt, "a spoiled cell", refused == Err(failed));
    }
    let sound = spoiled(rt, alloc, &witness, &[]);
    let one = terminal(rt, &witness, BabyBear4::ONE);
    let refused = answer(rt, alloc, air, &challenges, sound, one);
    let failed = LookupError::ConstraintFailed { air: 0, row: last };
    holds(rt, "a spoiled terminal", refused == Err(failed));
}

/// Two local lookups, each of which reads the number of a row on it and provides it on the row that is
/// as far from the end.
fn locals(rt: &impl Abort, alloc: Global, last: usize) -> Air {
    assert!(rt; last < 2000);
    let mut numbers = Vec::new(alloc);
    for row in 0..last as u32 + 1 {
        numbers
            .extend_from_slice(&[row, last as u32 - row, 1])
            .expect(rt, "memory");
    }
    let (first, mut second) = (range(rt, alloc), range(rt, alloc));
    second.column = 1;
    Air {
        main: trace(rt, alloc, numbers.as_slice(), 3),
        lookups: list(rt, alloc, [first, second]),
        ids: list(rt, alloc, [0, 1]),
    }
}

#[test]
fn spoiled_cells_of_local_lookups(rt: HostRuntime) {
    let air = locals(&rt, rt.alloc(), LAST);
    names_the_rows(&rt, rt.alloc(), &air, SPOILED.as_slice(), LAST);
}

/// Eight lookups on four buses. The first four ask for a tuple of four cells, and the others provide it
/// on the row that is as far from the end.
fn buses(rt: &impl Abort, alloc: Global) -> Air {
    let mut numbers = Vec::new(alloc);
    for row in 0..LAST as u32 + 1 {
        for cell in 0..16u32 {
            numbers.push(row + cell).expect(rt, "memory");
        }
        for cell in 0..16u32 {
            numbers.push(LAST as u32 - row + cell).expect(rt, "memory");
        }
    }
    let mut lookups = Vec::new(alloc);
    let mut ids = Vec::new(alloc);
    for column in 0..8usize {
        lookups
            .push(bus_lookup(rt, alloc, column))
            .expect(rt, "memory");
        ids.push(column % 4).expect(rt, "memory");
    }
    let main = trace(rt, alloc, numbers.as_slice(), 32);
    Air { main, lookups, ids }
}

/// The lookup in this column: four cells with count 1, in the last four columns with count -1.
fn bus_lookup(rt: &impl Abort, alloc: Global, column: usize) -> Lookup<BabyBear> {
    assert!(rt; column < 8);
    let count = if column < 4 {
        BabyBear::ONE
    } else {
        -BabyBear::ONE
    };
    let mut lookup = range(rt, alloc);
    lookup.column = column;
    let first = 4 * column;
    let tuple = [first, first + 1, first + 2, first + 3].map(cell);
    lookup.elements = alone(rt, alloc, list(rt, alloc, tuple));
    lookup.multiplicities = alone(rt, alloc, SymbolicExpression::constant(count));
    lookup
}

#[test]
fn spoiled_cells_of_lookups_on_buses(rt: HostRuntime) {
    let air = buses(&rt, rt.alloc());
    names_the_rows(&rt, rt.alloc(), &air, SPOILED.as_slice(), LAST);
}

/// The auxiliary trace with the fractions of the first two lookups exchanged on a row.
fn exchanged<EF: Field>(
    rt: &impl Abort,
    alloc: Global,
    made: &Witness<EF>,
    row: usize,
) -> RowMajorMatrix<EF> {
    let Some(aux) = made.aux.first() else {
        panic!(rt; "no auxiliary trace")
    };
    let width = aux.width();
    let mut values = Vec::new(alloc);
    values.extend_from_slice(aux.values()).expect(rt, "memory");
    let first = row.saturating_mul(width).saturating_add(1);
    assert!(rt; first < usize::MAX && first + 1 < values.len());
    values.swap(first, first + 1);
    assert!(rt; width > 0 && values.len() % width == 0);
    RowMajorMatrix::new(values, width)
}

/// Where two fractions are exchanged on a row, the accumulator still goes on by their sum, and only their own
/// constraints fail.
#[test]
fn exchanged_fractions_of_lookups_on_buses(rt: HostRuntime) {
    let alloc = rt.alloc();
    let air = buses(&rt, alloc);
    let challenges = table(&rt, alloc);
    let witness = made(&rt, alloc, &air, &challenges);
    for row in [0, 3, 1022, 1023, 1024, 1026, LAST] {
        let aux = exchanged(&rt, alloc, &witness, row);
        let zero = terminal(&rt, &witness, BabyBear4::ZERO);
        let refused = answer(&rt, alloc, &air, &challenges, aux, zero);
        let failed = LookupError::ConstraintFailed { air: 0, row };
        holds(&rt, "exchanged fractions", refused == Err(failed));
    }
}

/// Two groups of four branches, which take back each other's keys. Of five rows the first four select a
/// branch each, and the fifth none.
fn groups(rt: &impl Abort, alloc: Global) -> Air {
    let mut numbers = Vec::new(alloc);
    for row in 0..LAST as u32 + 1 {
        for branch in 0..4u32 {
            numbers
                .push(u32::from(row % 5 == branch))
                .expect(rt, "memory");
        }
        for branch in 0..4u32 {
            numbers.push(3 * row + branch).expect(rt, "memory");
        }
    }
    let branches = [(0, 4), (1, 5), (2, 6), (3, 7)];
    let first = group(rt, alloc, branches, BabyBear::ONE);
    let mut second = group(rt, alloc, branches, -BabyBear::ONE);
    second.column = 1;
    Air {
        main: trace(rt, alloc, numbers.as_slice(), 8),
        lookups: list(rt, alloc, [first, second]),
        ids: list(rt, alloc, [0, 0]),
    }
}

#[test]
fn spoiled_cells_of_exclusive_lookups(rt: HostRuntime) {
    let air = groups(&rt, rt.alloc());
    names_the_rows(&rt, rt.alloc(), &air, SPOILED.as_slice(), LAST);
}

/// The product of two cells.
fn product(
    rt: &impl Abort,
    alloc: Global,
    first: usize,
    second: usize,
) -> SymbolicExpression<BabyBear> {
    cell::<BabyBear>(first)
        .mul(alloc, cell(second))
        .expect(rt, "memory")
}

/// A lookup of the tuple `[c0 * c1 + c2, c0 * c2 - c1]`, with the product of these cells as its count.
fn product_lookup(
    rt: &impl Abort,
    alloc: Global,
    column: usize,
    count: (usize, usize),
) -> Lookup<BabyBear> {
    let sum = product(rt, alloc, 0, 1)
        .add(alloc, cell(2))
        .expect(rt, "memory");
    let difference = product(rt, alloc, 0, 2)
        .sub(alloc, cell(1))
        .expect(rt, "memory");
    let mut lookup = range(rt, alloc);
    lookup.column = column;
    lookup.elements = alone(rt, alloc, list(rt, alloc, [sum, difference]));
    lookup.multiplicities = alone(rt, alloc, product(rt, alloc, count.0, count.1));
    lookup
}

/// Two lookups of products, which take back each other's tuples: the counts are `c3 * c4` and `c3 * c5`,
/// and `c5` is the negative of `c4`.
fn products(rt: &impl Abort, alloc: Global) -> Air {
    let mut numbers = Vec::new(alloc);
    for row in 0..LAST as u32 + 1 {
        let cells = [row, row + 1, 2 * row, row + 3, 2, 2013265919];
        numbers.extend_from_slice(&cells).expect(rt, "memory");
    }
    let first = product_lookup(rt, alloc, 0, (3, 4));
    let second = product_lookup(rt, alloc, 1, (3, 5));
    Air {
        main: trace(rt, alloc, numbers.as_slice(), 6),
        lookups: list(rt, alloc, [first, second]),
        ids: list(rt, alloc, [0, 0]),
    }
}

#[test]
fn spoiled_cells_of_products(rt: HostRuntime) {
    let air = products(&rt, rt.alloc());
    names_the_rows(&rt, rt.alloc(), &air, SPOILED.as_slice(), LAST);
}

/// Twenty-three rows are checked one by one, and twenty-four in a chunk: both name the rows alike. So does a
/// trace of one row.
#[test]
fn spoiled_cells_of_few_rows(rt: HostRuntime) {
    let alloc = rt.alloc();
    let one: [(&[(usize, usize)], usize); 2] = [(&[(0, 0)], 0), (&[(0, 2)], 0)];
    names_the_rows(&rt, alloc, &locals(&rt, alloc, 0), one.as_slice(), 0);
    let few: [(&[(usize, usize)], usize); 5] = [
        (&[(0, 0)], 0),
        (&[(3, 0)], 2),
        (&[(22, 1)], 22),
        (&[(22, 0), (22, 1)], 21),
        (&[(22, 1), (20, 2)], 20),
    ];
    names_the_rows(&rt, alloc, &locals(&rt, alloc, 22), few.as_slice(), 22);
    names_the_rows(&rt, alloc, &locals(&rt, alloc, 23), few.as_slice(), 23);
}

/// The answer where on each of so many rows the flag is 2, the key 2 and the fraction 1, at alpha 5 and beta 2.
fn answer_to_flags_of_two(rt: &impl Abort, alloc: Global, height: u32) -> Result<(), LookupError> {
    let (mut numbers, mut cells) = (Vec::new(alloc), Vec::new(alloc));
    for row in 0..height {
        numbers.extend_from_slice(&[2, 2]).expect(rt, "memory");
        cells.extend_from_slice(&[row, 1]).expect(rt, "memory");
    }
    let main = trace(rt, alloc, numbers.as_slice(), 2);
    let lookups = [group(rt, alloc, [(0, 1)], F7::ONE)];
    let instances = [instance(lookups.as_slice(), &main, &[0])];
    let aux = [trace(rt, alloc, cells.as_slice(), 2)];
    let challenges = super::table(rt, alloc, 5, 2, 1);
    let terminals = [super::terminal(0)];
    let (aux, terminals) = (aux.as_slice(), terminals.as_slice());
    checked(rt, alloc, instances.as_slice(), &challenges, aux, terminals)
}

/// The prefix is 7, which is 0, and the denominator -2, which is 5. So the fraction f has to be such that
/// `(1 + 2 * (5 - 1)) * f` is 2: `2 * f = 2`, and f is 1. Fourteen of them add up to 0, and so do
/// thirty-five. Fourteen rows are checked one by one, and thirty-five in a chunk.
#[test]
fn a_flag_of_two_counts_twice(rt: HostRuntime) {
    for height in [14u32, 35] {
        let answer = answer_to_flags_of_two(&rt, rt.alloc(), height);
        holds(&rt, "accepted", answer.is_ok());
    }
}

/// Ranges of 1030 rows. The first one is one chunk, the second one two, and the last one is checked row by row.
const RANGES: [(usize, usize); 4] = [(1, 1025), (1, 1030), (1000, 1030), (1023, 1026)];

/// Spoiled cells, and up to which row the constraints hold in each of `RANGES`: up to its first row of those
/// that fail, or to its end. A spoiled fraction fails on its row alone. A spoiled accumulator fails on the row
/// before, and on its own, which it leads from.
const SPOILED_IN_RANGES: [(&[(usize, usize)], [usize; 4]); 16] = [
    (&[], [1025, 1030, 1030, 1026]),
    (&[(0, 0)], [1025, 1030, 1030, 1026]),
    (&[(0, 1)], [1025, 1030, 1030, 1026]),
    (&[(1, 0)], [1, 1, 1030, 1026]),
    (&[(1, 2)], [1, 1, 1030, 1026]),
    (&[(1000, 0)], [999, 999, 1000, 1026]),
    (&[(1023, 0)], [1022, 1022, 1022, 1023]),
    (&[(1024, 1)], [1024, 1024, 1024, 1024]),
    (&[(1025, 0)], [1024, 1024, 1024, 1024]),
    (&[(1025, 2)], [1025, 1025, 1025, 1025]),
    (&[(1026, 0)], [1025, 1025, 1025, 1025]),
    (&[(1026, 1)], [1025, 1026, 1026, 1026]),
    (&[(LAST, 0)], [1025, 1028, 1028, 1026]),
    (&[(LAST, 2)], [1025, LAST, LAST, 1026]),
    (&[(1025, 1), (1000, 2)], [1000, 1000, 1000, 1025]),
    (&[(0, 2), (1026, 1), (1025, 2)], [1025, 1025, 1025, 1025]),
];

#[test]
fn spoiled_cells_in_ranges(rt: HostRuntime) {
    let alloc = rt.alloc();
    let air = locals(&rt, alloc, LAST);
    let challenges = table(&rt, alloc);
    let witness = made(&rt, alloc, &air, &challenges);
    let zero = terminal(&rt, &witness, BabyBear4::ZERO);
    let whole = instance(air.lookups.as_slice(), &air.main, air.ids.as_slice());
    for (cells, wanted) in SPOILED_IN_RANGES.as_slice() {
        let aux = spoiled(&rt, alloc, &witness, cells);
        for (rows, row) in RANGES.iter().zip(wanted) {
            let found = until(&rt, alloc, &whole, &challenges, &aux, &zero, *rows);
            holds(&rt, "up to which row", found == *row);
        }
    }
}
