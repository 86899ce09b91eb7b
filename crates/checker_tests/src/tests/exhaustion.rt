//! All witnesses over `F7` at all challenges: at which of them some witness is accepted, and what the
//! counts say of that.
use super::counts::{count, counts};
use super::{cell, checked, holds, instance, list, lookup, range, terminal, trace};
use air::{Expression, SymbolicExpression};
use checker::BatchInstance;
use field::{F7, PrimeCharacteristicRing};
use lookup::{Challenges, Kind, Lookup};
use std::alloc::Global;
use std::process::Abort;

/// Whether some auxiliary trace of this height is accepted, with a terminal below `terminals`.
fn some_is_accepted(
    rt: &impl Abort,
    alloc: Global,
    instances: &[BatchInstance<'_, F7>],
    challenges: &Challenges<F7>,
    height: u32,
    terminals: u32,
) -> bool {
    let mut traces = 1u32;
    for _ in 0..height {
        traces = traces.saturating_mul(49);
    }
    for number in 0..traces {
        for value in 0..terminals {
            let mut rest = number;
            let mut cells = Vec::new(alloc);
            for _ in 0..height {
                cells.push(rest % 7).expect(rt, "memory");
                cells.push(rest / 7 % 7).expect(rt, "memory");
                rest /= 49;
            }
            let (aux, last) = ([trace(rt, alloc, cells.as_slice(), 2)], [terminal(value)]);
            if checked(
                rt,
                alloc,
                instances,
                challenges,
                aux.as_slice(),
                last.as_slice(),
            )
            .is_ok()
            {
                return true;
            }
        }
    }
    false
}

/// Whether a pair is in a list.
fn is_listed(pairs: &[(u32, u32)], alpha: u32, beta: u32) -> bool {
    for pair in pairs {
        if pair.0 == alpha && pair.1 == beta {
            return true;
        }
    }
    false
}

/// At each of the 49 pairs of challenges, for tuples of at most `width` elements, some witness is
/// accepted exactly if the pair, alpha first, is listed.
fn expect_accepted(
    rt: &impl Abort,
    alloc: Global,
    instances: &[BatchInstance<'_, F7>],
    width: usize,
    height: u32,
    terminals: u32,
    pairs: &[(u32, u32)],
) {
    assert!(rt; width > 0);
    for beta in 0..7u32 {
        for alpha in 0..7u32 {
            let pair = (F7::from_u32(alpha), F7::from_u32(beta));
            let challenges = Challenges::new(alloc, pair.0, pair.1, width, 1).expect(rt, "memory");
            let accepted = some_is_accepted(rt, alloc, instances, &challenges, height, terminals);
            let listed = is_listed(pairs, alpha, beta);
            assert!(rt; accepted == listed, "alpha {alpha}, beta {beta}");
        }
    }
}

/// Two queries of one key: their fraction is zero only where the denominator vanishes.
#[test]
fn one_key_queried_twice(rt: HostRuntime) {
    let alloc = rt.alloc();
    let main = trace(&rt, alloc, &[3], 1);
    let lookups = [lookup(&rt, alloc, None, [(0, None), (0, None)])];
    let instances = [instance(lookups.as_slice(), &main, &[0])];
    let instances = instances.as_slice();
    let pairs: [(u32, u32); 7] = [(3, 0), (2, 1), (1, 2), (0, 3), (6, 4), (5, 5), (4, 6)];
    expect_accepted(&rt, alloc, instances, 1, 1, 7, pairs.as_slice());
    let counted = counts::<F7, F7>(&rt, alloc, instances, 1).ok();
    holds(&rt, "the counts", counted == Some(count(1, 1, 0, Some(1))));
}

/// The local lookup of `[1, 0]` with count 1 and of `[0, 1]` with count -1.
fn two_pairs(rt: &impl Abort, alloc: Global) -> Lookup<F7> {
    let first = list(rt, alloc, [cell(0), cell(1)]);
    let second = list(rt, alloc, [cell(1), cell(0)]);
    let once = SymbolicExpression::constant(F7::ONE);
    let minus_once = SymbolicExpression::constant(F7::from_u32(6));
    Lookup {
        kind: Kind::Local,
        elements: list(rt, alloc, [first, second]),
        multiplicities: list(rt, alloc, [once, minus_once]),
        count_weight: 1,
        column: 0,
        flags: None,
    }
}

/// Both pairs combine alike at beta 1: there the lookup is accepted at every alpha, and at every other
/// beta at none.
#[test]
fn two_pairs_that_collide_at_one_beta(rt: HostRuntime) {
    let alloc = rt.alloc();
    let main = trace(&rt, alloc, &[1, 0], 2);
    let lookups = [two_pairs(&rt, alloc)];
    let instances = [instance(lookups.as_slice(), &main, &[0])];
    let instances = instances.as_slice();
    let pairs: [(u32, u32); 7] = [(0, 1), (1, 1), (2, 1), (3, 1), (4, 1), (5, 1), (6, 1)];
    expect_accepted(&rt, alloc, instances, 2, 1, 7, pairs.as_slice());
    let counted = counts::<F7, F7>(&rt, alloc, instances, 2).ok();
    holds(&rt, "the counts", counted == Some(count(2, 2, 2, Some(3))));
}

/// Two keys that are read and not provided, over two rows. A terminal that is not zero cannot cancel,
/// so zero alone is tried.
#[test]
fn two_keys_that_nothing_provides(rt: HostRuntime) {
    let alloc = rt.alloc();
    let main = trace(&rt, alloc, &[3, 1, 0, 4, 1, 0], 3);
    let lookups = [range(&rt, alloc)];
    let instances = [instance(lookups.as_slice(), &main, &[0])];
    let instances = instances.as_slice();
    let pairs: [(u32, u32); 14] = [
        (0, 0),
        (1, 0),
        (6, 1),
        (0, 1),
        (5, 2),
        (6, 2),
        (4, 3),
        (5, 3),
        (3, 4),
        (4, 4),
        (2, 5),
        (3, 5),
        (1, 6),
        (2, 6),
    ];
    expect_accepted(&rt, alloc, instances, 1, 2, 1, pairs.as_slice());
    let counted = counts::<F7, F7>(&rt, alloc, instances, 1).ok();
    holds(&rt, "the counts", counted == Some(count(3, 2, 1, Some(4))));
}

/// At how many alphas some witness of one row is accepted.
fn accepting_alphas(
    rt: &impl Abort,
    alloc: Global,
    instances: &[BatchInstance<'_, F7>],
    beta: u32,
) -> u128 {
    let mut alphas = 0u128;
    for alpha in 0..7u32 {
        let pair = (F7::from_u32(alpha), F7::from_u32(beta));
        let challenges = Challenges::new(alloc, pair.0, pair.1, 1, 1).expect(rt, "memory");
        if some_is_accepted(rt, alloc, instances, &challenges, 1, 7) {
            alphas = alphas.saturating_add(1);
        }
    }
    alphas
}

/// Rows of the range machine, drawn at random, with their four counts: no more than `bad_betas` betas
/// have more than `accepting_alphas` accepting alphas.
#[test]
fn rows_drawn_at_random(rt: HostRuntime) {
    let alloc = rt.alloc();
    let rows: [([u32; 3], u128, u128, u128, u128); 6] = [
        ([3, 5, 2], 2, 2, 1, 3),
        ([1, 6, 3], 2, 2, 1, 3),
        ([6, 1, 0], 2, 1, 0, 2),
        ([2, 2, 6], 1, 1, 0, 1),
        ([5, 4, 6], 2, 2, 1, 3),
        ([4, 4, 0], 1, 1, 0, 1),
    ];
    for (numbers, messages, unbalanced, bad_betas, most) in rows {
        let main = trace(&rt, alloc, numbers.as_slice(), 3);
        let lookups = [range(&rt, alloc)];
        let instances = [instance(lookups.as_slice(), &main, &[0])];
        let instances = instances.as_slice();
        let counted = counts::<F7, F7>(&rt, alloc, instances, 1).expect(&rt, "no fault");
        let expected = count(messages, unbalanced, bad_betas, Some(most));
        holds(&rt, "the counts", counted == expected);
        let mut bad = 0u128;
        for beta in 0..7u32 {
            if accepting_alphas(&rt, alloc, instances, beta) > most {
                bad = bad.saturating_add(1);
            }
        }
        holds(&rt, "the bad betas", bad <= bad_betas);
    }
}
