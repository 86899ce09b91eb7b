//! Whether some witness is accepted, beside a search through all witnesses, at all challenges over `F7`.
use super::{checked, group, have_prefixes, holds, instance, lookup, range, table, trace};
use checker::{BatchInstance, instances_fit, some_witness};
use field::{F7, PrimeCharacteristicRing};
use lookup::{Challenges, Lookup, LookupTerminal};
use matrix::RowMajorMatrix;
use std::alloc::Global;
use std::process::Abort;

/// The auxiliary trace whose fractions are the digits of a number to base 7, with their sum, and the digits
/// that are left; without lookups the empty one. With other accumulators or another terminal the constraints
/// fail.
fn trace_of(
    rt: &impl Abort,
    alloc: Global,
    height: usize,
    lookups: usize,
    digits: u32,
) -> (RowMajorMatrix<F7>, F7, u32) {
    let mut values = Vec::new(alloc);
    if lookups == 0 {
        return (RowMajorMatrix::new(values, 0), F7::ZERO, digits);
    }
    let (mut sum, mut left) = (F7::ZERO, digits);
    for _ in 0..height {
        values.push(sum).expect(rt, "memory");
        for _ in 0..lookups {
            let fraction = F7::from_u32(left % 7);
            left /= 7;
            values.push(fraction).expect(rt, "memory");
            sum = sum + fraction;
        }
    }
    let width = lookups.saturating_add(1);
    assert!(rt; width > 0 && values.len() % width == 0);
    (RowMajorMatrix::new(values, width), sum, left)
}

/// Whether the witness with these fractions is accepted.
fn is_accepted(
    rt: &impl Abort,
    alloc: Global,
    instances: &[BatchInstance<'_, F7>],
    challenges: &Challenges<F7>,
    digits: u32,
) -> bool {
    let (mut aux, mut terminals) = (Vec::new(alloc), Vec::new(alloc));
    let mut left = digits;
    for air in instances {
        let (height, lookups) = (air.main.height(), air.lookups.len());
        let (made, sum, rest) = trace_of(rt, alloc, height, lookups, left);
        left = rest;
        aux.push(made).expect(rt, "memory");
        let terminal = (lookups > 0).then_some(LookupTerminal(sum));
        terminals.push(terminal).expect(rt, "memory");
    }
    let (aux, terminals) = (aux.as_slice(), terminals.as_slice());
    checked(rt, alloc, instances, challenges, aux, terminals).is_ok()
}

/// Whether some witness is accepted, by trying all of them: there are 7 fractions for each of the cells.
fn some_is_accepted(
    rt: &impl Abort,
    alloc: Global,
    instances: &[BatchInstance<'_, F7>],
    challenges: &Challenges<F7>,
    cells: u32,
) -> bool {
    let mut witnesses = 1u32;
    for _ in 0..cells {
        witnesses = witnesses.saturating_mul(7);
    }
    for digits in 0..witnesses {
        if is_accepted(rt, alloc, instances, challenges, digits) {
            return true;
        }
    }
    false
}

/// At each of the 49 pairs of challenges the answer is that of a search.
fn expect_agreement(
    rt: &impl Abort,
    alloc: Global,
    instances: &[BatchInstance<'_, F7>],
    cells: u32,
) {
    for beta in 0..7u32 {
        for alpha in 0..7u32 {
            let challenges = table(rt, alloc, alpha, beta, 1);
            assert!(rt; instances_fit(instances));
            assert!(rt; have_prefixes(instances, challenges.bus_prefix.len()));
            let found = some_witness(alloc, instances, &challenges).expect(rt, "memory");
            let searched = some_is_accepted(rt, alloc, instances, &challenges, cells);
            assert!(rt; found == searched, "alpha {alpha}, beta {beta}");
        }
    }
}

/// So it is of one AIR with one lookup, over these rows.
fn expect_agreement_over(
    rt: &impl Abort,
    alloc: Global,
    lookup: Lookup<F7>,
    numbers: &[u32],
    width: usize,
    height: u32,
) {
    let main = trace(rt, alloc, numbers, width);
    let lookups = [lookup];
    let instances = [instance(lookups.as_slice(), &main, &[0])];
    expect_agreement(rt, alloc, instances.as_slice(), height);
}

/// Rows of the range machine, also with a multiplicity of zero, and where both tuples are the same.
#[test]
fn range_machines(rt: HostRuntime) {
    let alloc = rt.alloc();
    let one_row: [[u32; 3]; 5] = [[3, 4, 1], [4, 3, 0], [3, 3, 1], [3, 3, 0], [5, 4, 6]];
    for numbers in one_row {
        let lookup = range(&rt, alloc);
        expect_agreement_over(&rt, alloc, lookup, numbers.as_slice(), 3, 1);
    }
    let two_rows: [[u32; 6]; 3] = [[3, 4, 1, 4, 3, 1], [3, 1, 0, 4, 1, 0], [4, 3, 0, 3, 3, 1]];
    for numbers in two_rows {
        let lookup = range(&rt, alloc);
        expect_agreement_over(&rt, alloc, lookup, numbers.as_slice(), 3, 2);
    }
}

/// The same tuple twice, and groups whose flags are lawful or not.
#[test]
fn tuples_queried_twice_and_groups(rt: HostRuntime) {
    let alloc = rt.alloc();
    for numbers in [[3u32, 3], [3, 5]] {
        let lookup = lookup(&rt, alloc, None, [(0, None), (0, None)]);
        expect_agreement_over(&rt, alloc, lookup, numbers.as_slice(), 1, 2);
    }
    let groups: [[u32; 4]; 8] = [
        [1, 3, 0, 5],
        [0, 3, 0, 5],
        [1, 3, 1, 5],
        [1, 3, 1, 3],
        [2, 3, 0, 5],
        [3, 3, 5, 4],
        [1, 3, 6, 3],
        [1, 3, 6, 2],
    ];
    for numbers in groups {
        let lookup = group(&rt, alloc, [(0, 1), (2, 3)], F7::ONE);
        expect_agreement_over(&rt, alloc, lookup, numbers.as_slice(), 4, 1);
    }
}

/// Two AIRs on one bus, the second over two rows, and one without lookups between them.
#[test]
fn airs_on_one_bus(rt: HostRuntime) {
    let alloc = rt.alloc();
    let rows: [(u32, [u32; 4]); 3] = [(3, [3, 1, 5, 0]), (3, [4, 1, 5, 0]), (2, [2, 4, 2, 4])];
    for (key, entries) in rows {
        let asked = trace(&rt, alloc, &[key], 1);
        let provided = trace(&rt, alloc, entries.as_slice(), 2);
        let asks = [lookup(&rt, alloc, Some("keys"), [(0, None)])];
        let provides = [lookup(&rt, alloc, Some("keys"), [(0, Some(1))])];
        let instances = [
            instance(asks.as_slice(), &asked, &[0]),
            instance(&[], &asked, &[]),
            instance(provides.as_slice(), &provided, &[0]),
        ];
        expect_agreement(&rt, alloc, instances.as_slice(), 3);
    }
    // without AIRs nothing can fail
    let challenges = table(&rt, alloc, 5, 2, 1);
    let found = some_witness::<F7, F7>(alloc, &[], &challenges).expect(&rt, "memory");
    holds(&rt, "no AIR", found);
}
