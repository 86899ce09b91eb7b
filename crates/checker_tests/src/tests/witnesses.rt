//! Witnesses of whole traces over BabyBear, as its own extension and over its quartic one.
use super::{alone, cell, generate, group, holds, instance, list, range, rechecked, trace};
use air::{Expression, SymbolicExpression};
use checker::Witness;
use field::{ExtensionDomain, ExtensionField, Field, PrimeCharacteristicRing};
use field_monty::{BabyBear, BabyBear4};
use lookup::{Challenges, Lookup, LookupError, LookupTerminal};
use matrix::RowMajorMatrix;
use std::alloc::Global;
use std::process::Abort;

/// One AIR over BabyBear, whose lookups have the ids from 0 on, with the table of its challenges.
#[derive(Drop)]
struct Batch<EF> {
    main: RowMajorMatrix<BabyBear>,
    lookups: Vec<Lookup<BabyBear>>,
    ids: Vec<usize>,
    challenges: Challenges<EF>,
}

impl<EF: ExtensionField<BabyBear>> Batch<EF> {
    /// The AIR of these rows and lookups, for tuples of at most `width` elements.
    fn new(
        rt: &impl Abort,
        alloc: Global,
        main: RowMajorMatrix<BabyBear>,
        lookups: Vec<Lookup<BabyBear>>,
        pair: (EF, EF),
        width: usize,
    ) -> Self {
        let mut ids = Vec::new(alloc);
        for id in 0..lookups.len() {
            ids.push(id).expect(rt, "memory");
        }
        assert!(rt; 0 < width);
        let challenges = Challenges::new(alloc, pair.0, pair.1, width, ids.len());
        Batch {
            main,
            lookups,
            ids,
            challenges: challenges.expect(rt, "memory"),
        }
    }

    /// What generation makes of it.
    fn generate(&self, rt: &impl Abort, alloc: Global) -> Witness<EF> {
        let lookups = self.lookups.as_slice();
        let instances = [instance(lookups, &self.main, self.ids.as_slice())];
        generate(rt, alloc, instances.as_slice(), &self.challenges).expect(rt, "no fault")
    }

    /// The answer to a witness.
    fn answer(
        &self,
        rt: &impl Abort,
        alloc: Global,
        witness: &Witness<EF>,
    ) -> Result<(), LookupError> {
        let lookups = self.lookups.as_slice();
        let instances = [instance(lookups, &self.main, self.ids.as_slice())];
        rechecked(rt, alloc, instances.as_slice(), &self.challenges, witness)
    }
}

/// The cells of the AIR's auxiliary trace.
fn cells<EF>(witness: &Witness<EF>) -> &[EF] {
    match witness.aux.first() {
        Some(aux) => aux.values(),
        None => &[],
    }
}

/// The AIR's terminal.
fn terminal<EF: Field>(rt: &impl Abort, witness: &Witness<EF>) -> EF {
    match witness.terminals.first() {
        Some(Some(LookupTerminal(value))) => *value,
        _ => panic!(rt; "no terminal"),
    }
}

/// Every value that is read is provided as often, over all rows: 3 twice, 5 four times, 7 twice.
const BALANCED: [u32; 24] = [
    7, 3, 2, 3, 5, 4, 5, 7, 2, 3, 3, 0, 7, 5, 0, 5, 5, 0, 5, 7, 0, 5, 5, 0,
];

/// Fails unless the generated witness of three range lookups over the balanced rows ends with the
/// terminal zero and is accepted, where each lookup has a prefix of its own.
fn balances<EF: ExtensionField<BabyBear>>(rt: &impl Abort, alloc: Global, pair: (EF, EF)) {
    let mut lookups = Vec::new(alloc);
    for column in 0..3 {
        let mut lookup = range(rt, alloc);
        lookup.column = column;
        lookups.push(lookup).expect(rt, "memory");
    }
    let main = trace(rt, alloc, BALANCED.as_slice(), 3);
    let batch = Batch::new(rt, alloc, main, lookups, pair, 1);
    let made = batch.generate(rt, alloc);
    holds(rt, "four columns", cells(&made).len() == 32);
    holds(rt, "the terminal", terminal(rt, &made) == EF::ZERO);
    let accepted = batch.answer(rt, alloc, &made);
    holds(rt, "the witness", accepted.is_ok());
}

#[test]
fn a_balanced_trace_of_several_lookups_is_accepted(rt: HostRuntime) {
    let alloc = rt.alloc();
    let pair = (BabyBear::new(305419896), BabyBear::new(582803183));
    balances(&rt, alloc, pair);
    let alpha = BabyBear4::new([12, 34, 56, 78].map(BabyBear::new));
    let beta = BabyBear4::new([90, 1, 0, 23].map(BabyBear::new));
    balances(&rt, alloc, (alpha, beta));
}

/// A tuple of three cells.
fn triple(rt: &impl Abort, alloc: Global, cells: [usize; 3]) -> Vec<SymbolicExpression<BabyBear>> {
    list(rt, alloc, cells.map(cell))
}

/// Rows that read `0 1 1` twice, `1 1 2` and `0 0 0` once, and provide the same. The row that
/// provides `1 0 1` does so with multiplicity zero.
const ADDITIONS: [u32; 28] = [
    0, 1, 1, 0, 1, 1, 2, 0, 1, 1, 0, 0, 0, 1, 1, 1, 2, 1, 0, 1, 0, 0, 0, 0, 1, 1, 2, 1,
];

/// Whether each cell is the quotient of its number and its divisor, which comes first.
fn are_quotients<EF: ExtensionField<BabyBear>>(cells: &[EF], quotients: &[(u32, i32)]) -> bool {
    for (cell, (divisor, number)) in cells.iter().zip(quotients) {
        if *cell * EF::from_u32(*divisor) != EF::from_i32(*number) {
            return false;
        }
    }
    cells.len() == quotients.len()
}

/// Fails unless generation makes these cells and this terminal, each a divisor and a number, and this is
/// the answer to them. What it makes.
fn expect_quotients<EF: ExtensionField<BabyBear>>(
    rt: &impl Abort,
    alloc: Global,
    batch: &Batch<EF>,
    quotients: &[(u32, i32)],
    last: (u32, i32),
    answer: Result<(), LookupError>,
) -> Witness<EF> {
    let made = batch.generate(rt, alloc);
    let are_these = are_quotients(cells(&made), quotients);
    holds(rt, "the cells", are_these);
    let is_last = terminal(rt, &made) * EF::from_u32(last.0) == EF::from_i32(last.1);
    holds(rt, "the terminal", is_last);
    let own = batch.answer(rt, alloc, &made);
    holds(rt, "the answer", own == answer);
    made
}

/// A row reads the tuple of its first three cells once, and provides that of the next three as often as
/// its last cell says. The prefix is 31: alpha is that without `41^3` = 68921.
///
/// At the prefix 31 and beta 41 the denominators of `0 1 1`, `0 0 0` and `1 1 2` are -11, 31 and -1693.
/// So the fractions are 1/11, -(1/11 + 1/31), -1/1693 and 1/31 + 1/1693, whose sum is zero, and the
/// accumulators 0, 1/11, -1/31 and -(1/31 + 1/1693).
fn additions_have_their_fractions<EF: ExtensionField<BabyBear>>(rt: &impl Abort, alloc: Global) {
    let mut lookup = range(rt, alloc);
    let (read, provided) = (triple(rt, alloc, [0, 1, 2]), triple(rt, alloc, [3, 4, 5]));
    lookup.elements = list(rt, alloc, [read, provided]);
    let taken = cell::<BabyBear>(6).neg(alloc).expect(rt, "memory");
    let once = SymbolicExpression::constant(BabyBear::ONE);
    lookup.multiplicities = list(rt, alloc, [once, taken]);
    let pair = (EF::from_i32(-68890), EF::from_u32(41));
    let main = trace(rt, alloc, ADDITIONS.as_slice(), 7);
    let batch = Batch::new(rt, alloc, main, list(rt, alloc, [lookup]), pair, 3);
    let quotients = [
        (1, 0),
        (11, 1),
        (11, 1),
        (341, -42),
        (31, -1),
        (1693, -1),
        (52483, -1724),
        (52483, 1724),
    ];
    expect_quotients(rt, alloc, &batch, quotients.as_slice(), (1, 0), Ok(()));
}

#[test]
fn tuples_are_combined_by_powers_of_beta(rt: HostRuntime) {
    additions_have_their_fractions::<BabyBear>(&rt, rt.alloc());
    additions_have_their_fractions::<BabyBear4>(&rt, rt.alloc());
}

/// The range lookup over these rows, at the prefix and the beta of these numbers.
fn range_batch<EF: ExtensionField<BabyBear>>(
    rt: &impl Abort,
    alloc: Global,
    rows: &[u32],
    prefix: u32,
    beta: u32,
) -> Batch<EF> {
    let main = trace(rt, alloc, rows, 3);
    let lookups = list(rt, alloc, [range(rt, alloc)]);
    let beta = EF::from_u32(beta);
    let pair = (EF::from_u32(prefix) - beta, beta);
    Batch::new(rt, alloc, main, lookups, pair, 1)
}

/// The first row reads 10 and provides it with multiplicity zero, the second reads and provides 20.
/// At the prefix 123 the first fraction is 1/113 and the second zero, and so the terminal is 1/113.
fn a_read_without_a_provider_stays<EF: ExtensionField<BabyBear>>(rt: &impl Abort, alloc: Global) {
    let batch: Batch<EF> = range_batch(rt, alloc, &[10, 10, 0, 20, 20, 1], 123, 111);
    let quotients = [(1, 0), (113, 1), (113, 1), (1, 0)];
    let refused = Err(LookupError::TerminalSumNonZero);
    let mut made = expect_quotients(rt, alloc, &batch, quotients.as_slice(), (113, 1), refused);
    if let Some(terminal) = made.terminals.get_mut(0) {
        *terminal = Some(LookupTerminal(EF::ZERO));
    }
    let failed = LookupError::ConstraintFailed { air: 0, row: 1 };
    let changed = batch.answer(rt, alloc, &made);
    holds(rt, "a terminal of zero", changed == Err(failed));
}

#[test]
fn a_zero_multiplicity_provides_nothing(rt: HostRuntime) {
    a_read_without_a_provider_stays::<BabyBear>(&rt, rt.alloc());
    a_read_without_a_provider_stays::<BabyBear4>(&rt, rt.alloc());
}

/// The answer to a witness of rows that read what they provide. Its cells and its terminal are zero, but
/// for the cell at this index, which is 99.
fn broken_answer<EF: ExtensionField<BabyBear>>(
    rt: &impl Abort,
    alloc: Global,
    index: usize,
) -> Result<(), LookupError> {
    let rows = [10, 10, 1, 20, 20, 1, 30, 30, 1, 40, 40, 1];
    let batch: Batch<EF> = range_batch(rt, alloc, rows.as_slice(), 31, 41);
    let mut broken = [0; 8];
    assert!(rt; index < 8);
    broken[index] = 99;
    let mut values = Vec::new(alloc);
    for number in broken {
        values.push(EF::from_u32(number)).expect(rt, "memory");
    }
    assert!(rt; values.len() % 2 == 0);
    let witness = Witness {
        aux: alone(rt, alloc, RowMajorMatrix::new(values, 2)),
        terminals: alone(rt, alloc, Some(LookupTerminal(EF::ZERO))),
    };
    batch.answer(rt, alloc, &witness)
}

/// A changed accumulator is refused at the row before it, which leads to it, or on the first row
/// at once; a changed fraction on its own row.
fn broken_cells_are_refused<EF: ExtensionField<BabyBear>>(rt: &impl Abort, alloc: Global) {
    for (index, row) in [0, 0, 0, 1, 1, 2, 2, 3usize].iter().enumerate() {
        let failed = LookupError::ConstraintFailed { air: 0, row: *row };
        let answer = broken_answer::<EF>(rt, alloc, index);
        holds(rt, "a changed cell", answer == Err(failed));
    }
}

#[test]
fn a_broken_witness_is_refused_where_it_breaks(rt: HostRuntime) {
    broken_cells_are_refused::<BabyBear>(&rt, rt.alloc());
    broken_cells_are_refused::<BabyBear4>(&rt, rt.alloc());
}

/// Rows of two branches over BabyBear, and the key that each sends, or 0.
const KEYS: [([u32; 4], u32); 8] = [
    ([1, 100, 0, 200], 100),
    ([0, 101, 0, 201], 0),
    ([0, 102, 1, 202], 202),
    ([0, 103, 0, 203], 0),
    ([1, 104, 0, 204], 104),
    ([0, 105, 0, 205], 0),
    ([0, 106, 1, 206], 206),
    ([0, 107, 0, 207], 0),
];

/// The cells of these rows, and the accumulators and fractions at a prefix, with their sum in the end: a
/// row that sends a key has one over the prefix without it, and one that sends none has zero.
fn select(
    rt: &impl Abort,
    alloc: Global,
    rows: &[([u32; 4], u32)],
    prefix: BabyBear4,
) -> (Vec<u32>, Vec<BabyBear4>) {
    let (mut numbers, mut expected) = (Vec::new(alloc), Vec::new(alloc));
    let mut sum = BabyBear4::ZERO;
    for (row, key) in rows {
        numbers.extend_from_slice(row).expect(rt, "memory");
        let denominator = prefix - BabyBear4::embed(BabyBear::new(*key));
        let quotient = denominator.try_inverse().expect(rt, "an inverse");
        let fraction = if *key == 0 { BabyBear4::ZERO } else { quotient };
        expected
            .extend_from_slice(&[sum, fraction])
            .expect(rt, "memory");
        sum = sum + fraction;
    }
    expected.push(sum).expect(rt, "memory");
    (numbers, expected)
}

#[test]
fn branches_are_selected_in_the_extension(rt: HostRuntime) {
    let alloc = rt.alloc();
    let prefix = BabyBear4::new([7, 1, 0, 0].map(BabyBear::new));
    let beta = BabyBear4::embed(BabyBear::new(11));
    let (numbers, mut expected) = select(&rt, alloc, KEYS.as_slice(), prefix);
    let main = trace(&rt, alloc, numbers.as_slice(), 4);
    let lookup = group(&rt, alloc, [(0, 1), (2, 3)], BabyBear::ONE);
    let lookups = alone(&rt, alloc, lookup);
    let batch = Batch::new(&rt, alloc, main, lookups, (prefix - beta, beta), 1);
    let made = batch.generate(&rt, alloc);
    let sum = expected.pop();
    holds(&rt, "the cells", cells(&made) == expected.as_slice());
    holds(&rt, "the terminal", Some(terminal(&rt, &made)) == sum);
    let unbalanced = batch.answer(&rt, alloc, &made);
    let refused = Err(LookupError::TerminalSumNonZero);
    holds(&rt, "its terminal alone is refused", unbalanced == refused);
}
