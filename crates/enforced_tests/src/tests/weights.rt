//! Bounds of queries beside the weights of lookups.
use super::{group, holds, list, local};
use field::F7;
use lookup::Lookup;
use lookup_enforced::{Enforcement, keeps_weight};
use std::alloc::Global;
use std::process::Abort;

/// Whether a lookup keeps this weight, with these bounds and queries.
fn keeps(
    rt: &impl Abort,
    alloc: Global,
    lookup: Lookup<F7>,
    flags: bool,
    bounds: &[Option<u64>],
    queries: &[bool],
) -> bool {
    let mut list = Vec::new(alloc);
    list.extend_from_slice(bounds).expect(rt, "memory");
    let enforcement = Enforcement {
        flags,
        bounds: list,
        missing: None,
    };
    keeps_weight(&lookup, &enforcement, queries)
}

/// The group with another weight.
fn weighed(rt: &impl Abort, alloc: Global, weight: u64) -> Lookup<F7> {
    let mut lookup = group(rt, alloc, 0);
    lookup.count_weight = weight;
    lookup
}

/// With lawful flags a row sends one of two queries, and else both.
#[test]
fn queries_of_a_group(rt: HostRuntime) {
    let alloc = rt.alloc();
    let three_and_two: &[Option<u64>] = &[Some(3), Some(2)];
    let both: &[bool] = &[true, true];
    let cases: &[(bool, u64, bool)] = &[
        (true, 3, true),
        (true, 2, false),
        (false, 5, true),
        (false, 4, false),
    ];
    for (flags, weight, wanted) in cases {
        let lookup = weighed(&rt, alloc, *weight);
        let found = keeps(&rt, alloc, lookup, *flags, three_and_two, both);
        holds(&rt, "three and two", found == *wanted);
    }
}

/// A query without a bound keeps no weight, and a provided entry needs no bound. A sum that does not fit 64 bits is
/// above each weight.
#[test]
fn bounds_that_are_missing(rt: HostRuntime) {
    let alloc = rt.alloc();
    let cases: &[(&[Option<u64>], &[bool], bool)] = &[
        (&[None, Some(1)], &[true, true], false),
        (&[None, Some(1)], &[false, true], true),
        (&[None, None], &[false, false], true),
        (&[Some(u64::MAX), Some(1)], &[true, true], false),
        (&[Some(u64::MAX), Some(0)], &[true, true], true),
    ];
    for (bounds, queries, wanted) in cases {
        let lookup = weighed(&rt, alloc, u64::MAX);
        let found = keeps(&rt, alloc, lookup, false, bounds, queries);
        holds(&rt, "bounds of a group", found == *wanted);
    }
}

/// Lists of other lengths keep no weight.
#[test]
fn lists_of_other_lengths(rt: HostRuntime) {
    let alloc = rt.alloc();
    let one: &[Option<u64>] = &[Some(1)];
    let two: &[Option<u64>] = &[Some(0), Some(0)];
    let short = keeps(&rt, alloc, local(&rt, alloc, 0), true, one, &[]);
    holds(&rt, "no queries", !short);
    let long = keeps(&rt, alloc, local(&rt, alloc, 0), true, two, &[false]);
    holds(&rt, "two bounds", !long);
    let mut torn = local(&rt, alloc, 0);
    torn.elements = list(&rt, alloc, []);
    let found = keeps(&rt, alloc, torn, true, one, &[false]);
    holds(&rt, "no tuple", !found);
    let whole = keeps(&rt, alloc, local(&rt, alloc, 0), true, one, &[true]);
    holds(&rt, "one of each", whole);
}
