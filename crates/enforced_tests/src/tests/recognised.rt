//! What the constraints of a memory enforce of its lookups.
use super::{IS_REAL, IS_WRITE, bits, cell, group, holds, is_bit, list, local, set};
use air_expressions::SymbolicExpression;
use batch::HeightSoundness;
use batch_enforced::EnforcedPlan;
use field::F7;
use lookup::Lookup;
use lookup_enforced::{Enforcement, Missing, enforcements, keeps_weight};
use std::alloc::Global;
use std::process::Abort;

/// What these constraints are shown to enforce of a lookup.
fn shown(
    rt: &impl Abort,
    alloc: Global,
    constraints: &[SymbolicExpression<F7>],
    lookup: &Lookup<F7>,
    height: usize,
) -> Enforcement {
    let lookups = list(rt, alloc, [lookup.copy(alloc).expect(rt, "memory")]);
    let mut found = enforcements(alloc, constraints, lookups.as_slice(), height).expect(
        rt, "memory",
    );
    found.pop().expect(rt, "one lookup")
}

/// Whether it is not shown, at this height, that flag 0 of the group is a bit.
fn lacks_first_flag(found: &Enforcement) -> bool {
    match found.missing {
        Some(Missing::Flag { flag, .. }) => !found.flags && flag == 0,
        _ => false,
    }
}

/// With both bits the branches of the memory exclude each other, on one row and on more. Each count is at most 1.
#[test]
fn a_memory(rt: HostRuntime) {
    let alloc = rt.alloc();
    let constraints = bits(&rt, alloc);
    for height in [1, 2] {
        let lookup = group(&rt, alloc, 0);
        let found = shown(&rt, alloc, constraints.as_slice(), &lookup, height);
        holds(&rt, "flags", found.flags && found.missing.is_none());
        holds(
            &rt,
            "bounds",
            found.bounds.as_slice() == [Some(1), Some(1)].as_slice(),
        );
        holds(&rt, "weight", keeps_weight(&lookup, &found, &[true, true]));
        let lookup = local(&rt, alloc, 0);
        let found = shown(&rt, alloc, constraints.as_slice(), &lookup, height);
        holds(
            &rt,
            "bound of a bit",
            found.bounds.as_slice() == [Some(1)].as_slice(),
        );
        holds(&rt, "its weight", keeps_weight(&lookup, &found, &[true]));
    }
}

/// One bit of both does not do: the first flag is the product of both.
#[test]
fn one_bit_alone(rt: HostRuntime) {
    let alloc = rt.alloc();
    for column in [IS_REAL, IS_WRITE] {
        let constraints = list(&rt, alloc, [is_bit(&rt, alloc, column)]);
        let found = shown(&rt, alloc, constraints.as_slice(), &group(&rt, alloc, 0), 2);
        holds(&rt, "the first flag", lacks_first_flag(&found));
    }
}

/// Flags `is_real` and `is_write`, which may both be 1.
#[test]
fn flags_that_overlap(rt: HostRuntime) {
    let alloc = rt.alloc();
    let constraints = bits(&rt, alloc);
    let mut lookup = group(&rt, alloc, 0);
    lookup.flags = Some(list(&rt, alloc, [cell(IS_REAL), cell(IS_WRITE)]));
    let found = shown(&rt, alloc, constraints.as_slice(), &lookup, 2);
    let overlap = matches!(found.missing, Some(Missing::Exclusive { .. }));
    holds(&rt, "both", !found.flags && overlap);
    holds(
        &rt,
        "each count is 1",
        keeps_weight(&lookup, &found, &[true, false]),
    );
    holds(
        &rt,
        "both count 2",
        !keeps_weight(&lookup, &found, &[true, true]),
    );
}

/// Three rows of two messages each, of width 1: six messages, `1 * (6 - 1)` bad betas, and `2 * 6 - 1` alphas.
#[test]
fn the_plan_of_a_memory(rt: HostRuntime) {
    let alloc = rt.alloc();
    let records = list(&rt, alloc, [local(&rt, alloc, 0), group(&rt, alloc, 1)]);
    let airs = list(&rt, alloc, [set(&rt, alloc, records)]);
    let constraints = list(&rt, alloc, [bits(&rt, alloc)]);
    let plan = EnforcedPlan::new(alloc, airs, list(&rt, alloc, [3]), constraints);
    let wanted = HeightSoundness {
        most_messages: 6,
        bad_betas: 5,
        accepting_alphas: Some(11),
    };
    let found = plan.expect(&rt, "enforced").soundness_of_heights::<F7>();
    holds(&rt, "three rows", found == Ok(wanted));
}
