//! Counts of the accepted pairs of grids.
use super::proving::{group_plan, range_plan};
use super::{alone, cell, holds, kind, trace};
use air::{Expression, SymbolicExpression};
use batch::{BatchError, BatchPlan, GridCount};
use field::{F7, PrimeCharacteristicRing};
use field_monty::{BabyBear, BabyBear4};
use lookup::{Kind, Lookup, LookupError, Lookups};
use std::alloc::Global;
use std::process::Abort;

/// The count over one main trace of these numbers.
fn count_grid(
    rt: &impl Abort,
    alloc: Global,
    plan: &BatchPlan<F7>,
    numbers: &[u32],
    width: usize,
    alphas: &[F7],
    betas: &[F7],
) -> Result<GridCount, BatchError> {
    let main = trace(rt, alloc, numbers, width);
    plan.grid_count(alloc, &[alone(&main)], alphas, betas)
}

/// Fails with this text unless a count is this one.
fn expect_count(
    rt: &impl Abort,
    what: &str,
    counted: Result<GridCount, BatchError>,
    accepted: u128,
    bound: Option<u128>,
) {
    holds(rt, what, counted == Ok(GridCount { accepted, bound }));
}

/// Rows of the range machine: two keys that nothing provides are accepted at 14 pairs of all 49, and two
/// rows that provide what they read wherever no denominator vanishes.
#[test]
fn grids_of_the_range_machine(rt: HostRuntime) {
    let alloc = rt.alloc();
    let plan = range_plan::<F7>(&rt, alloc, 2);
    let all = [0, 1, 2, 3, 4, 5, 6].map(F7::new);
    let (all, none) = (all.as_slice(), [F7::ZERO; 0]);
    let none = none.as_slice();
    let unbalanced = [3u32, 1, 0, 4, 1, 0];
    let of = |alphas: &[F7], betas: &[F7]| {
        count_grid(&rt, alloc, &plan, unbalanced.as_slice(), 3, alphas, betas)
    };
    expect_count(&rt, "all pairs", of(all, all), 14, Some(35));
    expect_count(&rt, "no alphas", of(none, all), 0, Some(28));
    expect_count(&rt, "no betas", of(all, none), 0, Some(7));
    let balanced = count_grid(&rt, alloc, &plan, &[3, 4, 1, 4, 3, 1], 3, all, all);
    expect_count(&rt, "messages that balance", balanced, 35, None);
    let (ones, twos) = ([1, 1].map(F7::new), [2, 2].map(F7::new));
    let repeated = of(ones.as_slice(), twos.as_slice());
    holds(
        &rt,
        "repeats",
        repeated == Err(BatchError::RepeatedChallenge),
    );
}

/// The plan of one local lookup of these tuples of cells, with the counts 1 and `second`.
fn of_two(rt: &impl Abort, alloc: Global, tuples: [&[usize]; 2], second: u32) -> BatchPlan<F7> {
    let mut elements = Vec::new(alloc);
    for cells in tuples {
        let mut tuple = Vec::new(alloc);
        for index in cells {
            tuple.push(cell(*index)).expect(rt, "memory");
        }
        elements.push(tuple).expect(rt, "memory");
    }
    let counts = [1, second].map(|count| SymbolicExpression::constant(F7::from_u32(count)));
    let lookup = Lookup {
        kind: Kind::Local,
        elements,
        multiplicities: Vec::from_array(alloc, counts).expect(rt, "memory"),
        count_weight: 1,
        column: 0,
        flags: None,
    };
    let records = Vec::from_array(alloc, [lookup]).expect(rt, "memory");
    let set = Lookups::from_records(alloc, records).expect(rt, "well formed");
    let airs = Vec::from_array(alloc, [set]).expect(rt, "memory");
    let heights = Vec::from_array(alloc, [1]).expect(rt, "memory");
    BatchPlan::new(alloc, airs, heights).expect(rt, "a plan")
}

/// A key that is queried twice is accepted at one alpha for each beta, where its denominator vanishes: no
/// witness that generation makes is. `[1, 0]` against `[0, 1]` is accepted at beta 1 alone, at every alpha.
#[test]
fn grids_of_two_tuples(rt: HostRuntime) {
    let alloc = rt.alloc();
    let all = [0, 1, 2, 3, 4, 5, 6].map(F7::new);
    let all = all.as_slice();
    let twice = of_two(&rt, alloc, [&[0], &[0]], 1);
    let counts = count_grid(&rt, alloc, &twice, &[3], 1, all, all);
    expect_count(&rt, "a key twice", counts, 7, Some(7));
    let pairs = of_two(&rt, alloc, [&[0, 1], &[1, 0]], 6);
    let counts = count_grid(&rt, alloc, &pairs, &[1, 0], 2, all, all);
    expect_count(&rt, "two pairs", counts, 7, Some(35));
}

/// The traces come before a repeat, and a repeat before the flags.
#[test]
fn refusals_of_grids(rt: HostRuntime) {
    let alloc = rt.alloc();
    let (once, twice) = ([1, 2].map(F7::new), [2, 1, 2].map(F7::new));
    let (once, twice) = (once.as_slice(), twice.as_slice());
    let plan = group_plan(&rt, alloc, 2);
    let (good, bad) = (
        trace(&rt, alloc, &[1, 3, 0, 5], 4),
        trace(&rt, alloc, &[2, 3, 0, 5], 4),
    );
    let high = trace(&rt, alloc, &[2, 3, 0, 5, 2, 3, 0, 5], 4);
    let traces = [alone(&good), alone(&bad)];
    let refused = |alphas: &[F7], betas: &[F7]| {
        plan.grid_count(alloc, traces.as_slice(), alphas, betas)
            .err()
    };
    let repeat = Some(BatchError::RepeatedChallenge);
    holds(&rt, "alphas", refused(twice, once) == repeat);
    holds(&rt, "betas", refused(once, twice) == repeat);
    let error = LookupError::FlagNotBoolean { row: 0, lookup: 0 };
    let flags = Some(BatchError::Air { air: 1, error });
    holds(&rt, "a flag of 2", refused(once, once) == flags);
    let unfit = plan
        .grid_count(alloc, &[alone(&good), alone(&high)], twice, twice)
        .err();
    holds(
        &rt,
        "two rows",
        unfit == Some(BatchError::TraceMismatch { air: 1 }),
    );
    let few = BatchError::LengthMismatch {
        expected: 2,
        actual: 0,
    };
    holds(
        &rt,
        "no traces",
        plan.grid_count(alloc, &[], twice, once).err() == Some(few),
    );
}

/// The row `0 1 0` reads 0, which nothing provides. Its fraction is zero nowhere, and free only where
/// alpha + beta is 1: there the entry 1, provided zero times, has the denominator zero.
#[test]
fn a_grid_over_the_quartic_extension(rt: HostRuntime) {
    let alloc = rt.alloc();
    let plan = range_plan::<BabyBear>(&rt, alloc, 1);
    let main = trace(&rt, alloc, &[0, 1, 0], 3);
    let element = |values: [u32; 4]| BabyBear4::new(values.map(BabyBear::from_u32));
    let (zero, one) = (element([0, 0, 0, 0]), element([1, 0, 0, 0]));
    let x = element([0, 1, 0, 0]);
    let alphas = [x, one, one - x, zero];
    let betas = [zero, x];
    // at beta 0 the alpha 1, at beta X the alpha 1 - X
    let traces = [alone(&main)];
    let counts = plan.grid_count(
        alloc,
        traces.as_slice(),
        alphas.as_slice(),
        betas.as_slice(),
    );
    expect_count(&rt, "two of eight", counts, 2, Some(4));
}

/// A lookup that sends a cell with the count of another one, under a flag if one is named.
fn sender(
    rt: &impl Abort,
    alloc: Global,
    bus: Option<&str>,
    sent: usize,
    count: usize,
    flag: Option<usize>,
) -> Lookup<F7> {
    let tuple = Vec::from_array(alloc, [cell(sent)]).expect(rt, "memory");
    Lookup {
        kind: kind(rt, alloc, bus),
        elements: Vec::from_array(alloc, [tuple]).expect(rt, "memory"),
        multiplicities: Vec::from_array(alloc, [cell(count)]).expect(rt, "memory"),
        count_weight: 1,
        column: 0,
        flags: flag.map(|flag| Vec::from_array(alloc, [cell(flag)]).expect(rt, "memory")),
    }
}

/// The plan of one row of three lookups: lookup `i` sends cell `i`, with the count of cell `3 + i`. The first
/// two are local, or both are on one bus; the third is local. With a gap, a lookup under the flag of cell 6
/// stands before the third, and takes the id between.
fn of_three(rt: &impl Abort, alloc: Global, on_one_bus: bool, with_gap: bool) -> BatchPlan<F7> {
    let bus = if on_one_bus { Some("a") } else { None };
    let mut records = Vec::new(alloc);
    for sent in 0..2usize {
        records
            .push(sender(rt, alloc, bus, sent, 3 + sent, None))
            .expect(rt, "memory");
    }
    if with_gap {
        records
            .push(sender(rt, alloc, None, 0, 3, Some(6)))
            .expect(rt, "memory");
    }
    records
        .push(sender(rt, alloc, None, 2, 5, None))
        .expect(rt, "memory");
    for column in 0..records.len() {
        records[column].column = column;
    }
    let set = Lookups::from_records(alloc, records).expect(rt, "well formed");
    let airs = Vec::from_array(alloc, [set]).expect(rt, "memory");
    let heights = Vec::from_array(alloc, [1]).expect(rt, "memory");
    BatchPlan::new(alloc, airs, heights).expect(rt, "a plan")
}

/// At how many betas more alphas are accepting than `n + k - 1`, and how many the linear bound allows.
fn bad_betas(rt: &impl Abort, alloc: Global, plan: &BatchPlan<F7>, row: &[u32]) -> (u128, u128) {
    let main = trace(rt, alloc, row, 7);
    let traces = [alone(&main)];
    let traces = traces.as_slice();
    let counts = plan
        .soundness_count::<F7>(alloc, traces)
        .expect(rt, "no flags");
    let Some(most) = counts.accepting_alphas else {
        return (0, counts.linear_bad_betas());
    };
    let all = [0, 1, 2, 3, 4, 5, 6].map(F7::new);
    let mut bad = 0u128;
    for beta in 0..7u32 {
        let grid = plan.grid_count(alloc, traces, all.as_slice(), &[F7::new(beta)]);
        if grid.expect(rt, "no flags").accepted > most {
            bad = bad.saturating_add(1);
        }
    }
    (bad, counts.linear_bad_betas())
}

/// Fails unless no batch of the plan has more bad betas than `W * (k - 1)`, where `W` is 1, with all elements
/// and counts of `F7`.
///
/// A shift of all elements shifts all points, and so the accepting alphas; a factor of all elements and of
/// beta is one of all points, and a factor of all counts one of all fractions. So the first element is 0, and
/// the next two are 0 and 0, 0 and 1, or 1 and any; the first two counts are 1 and some count, 0 and 1, or
/// both 0.
fn stays_within_the_linear_bound(rt: &impl Abort, plan: &BatchPlan<F7>, alloc: Global) {
    let starts: [(u32, u32); 9] = [
        (1, 0),
        (1, 1),
        (1, 2),
        (1, 3),
        (1, 4),
        (1, 5),
        (1, 6),
        (0, 1),
        (0, 0),
    ];
    for (first, second) in starts {
        for number in 0..63u32 {
            let pair = number / 7;
            let (one, other) = if pair < 2 { (0, pair) } else { (1, pair - 2) };
            let row = [0, one, other, first, second, number % 7, 0];
            let (bad, most) = bad_betas(rt, alloc, plan, row.as_slice());
            holds(rt, "within the linear bound", bad <= most);
        }
    }
}

/// Three lookups of one element, under the ids 0, 1 and 2. A shift of all ids shifts all points at a beta, and
/// a factor of all ids is one of beta. So three different ids are as these, or as 0, 1 and 3.
#[test]
fn three_ids_in_a_row_stay_within_the_linear_bound(rt: HostRuntime) {
    let alloc = rt.alloc();
    stays_within_the_linear_bound(&rt, &of_three(&rt, alloc, false, false), alloc);
}

/// The same under the ids 0, 1 and 3.
#[test]
fn three_ids_with_a_gap_stay_within_the_linear_bound(rt: HostRuntime) {
    let alloc = rt.alloc();
    stays_within_the_linear_bound(&rt, &of_three(&rt, alloc, false, true), alloc);
}

/// The same under the ids 0, 0 and 1, for two lookups on a bus and a local one.
#[test]
fn two_ids_stay_within_the_linear_bound(rt: HostRuntime) {
    let alloc = rt.alloc();
    stays_within_the_linear_bound(&rt, &of_three(&rt, alloc, true, false), alloc);
}

/// The points of the first two lookups are `0 - beta` and `1 - 2 * beta`: the same at beta 1 alone. There
/// counts of 1 and -1 cancel, so all alphas but the point 6 are accepting: six, where at most 3 + 2 - 1 are
/// counted.
#[test]
fn two_keys_meet_the_linear_bound(rt: HostRuntime) {
    let alloc = rt.alloc();
    let plan = of_three(&rt, alloc, false, false);
    let met = bad_betas(&rt, alloc, &plan, &[0, 1, 0, 1, 6, 0, 0]);
    holds(&rt, "one of one", met == (1, 1));
}
