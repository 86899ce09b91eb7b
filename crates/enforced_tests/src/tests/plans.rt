//! Plans with constraints: what is refused, and what is bounded.
use super::{bits, group, holds, list, local, set};
use air_constraints::RowKind;
use air_expressions::SymbolicExpression;
use batch::{BatchError, HeightSoundness};
use batch_enforced::{
    EnforcedPlan, EnforcementError, UnshownFlags, flags_are_enforced, queries_are_provided,
};
use field::F7;
use lookup::Lookups;
use lookup_enforced::Missing;
use std::alloc::Global;
use std::process::Abort;

/// The first of several rows.
const FIRST: RowKind = RowKind {
    is_first: true,
    is_last: false,
};

/// The refusal of the plan of these AIRs at these heights, if there is one.
fn refusal(
    alloc: Global,
    airs: Vec<Lookups<F7>>,
    heights: Vec<usize>,
    constraints: Vec<Vec<SymbolicExpression<F7>>>,
) -> Option<EnforcementError> {
    EnforcedPlan::new(alloc, airs, heights, constraints).err()
}

/// An AIR with a local lookup alone, which needs no constraints.
pub(super) fn plain(rt: &impl Abort, alloc: Global) -> Lookups<F7> {
    set(rt, alloc, list(rt, alloc, [local(rt, alloc, 0)]))
}

/// An AIR with a local lookup and a group.
pub(super) fn memory(rt: &impl Abort, alloc: Global) -> Lookups<F7> {
    let records = list(rt, alloc, [local(rt, alloc, 0), group(rt, alloc, 1)]);
    set(rt, alloc, records)
}

/// The numbers come before all else, then the plan's own check.
#[test]
fn numbers_that_do_not_fit(rt: HostRuntime) {
    let alloc = rt.alloc();
    let airs = list(&rt, alloc, [memory(&rt, alloc)]);
    let refused = refusal(alloc, airs, Vec::new(alloc), Vec::new(alloc));
    let wanted = EnforcementError::LengthMismatch {
        expected: 1,
        actual: 0,
    };
    holds(&rt, "no list of constraints", refused == Some(wanted));
    let airs = list(&rt, alloc, [memory(&rt, alloc)]);
    let none = list(&rt, alloc, [Vec::new(alloc)]);
    let refused = refusal(alloc, airs, list(&rt, alloc, [2, 2]), none);
    let wanted = EnforcementError::Plan(BatchError::LengthMismatch {
        expected: 1,
        actual: 2,
    });
    holds(&rt, "two heights", refused == Some(wanted));
}

/// Without constraints nothing is known of the flags of the second AIR. The first one has none.
#[test]
fn flags_that_are_not_enforced(rt: HostRuntime) {
    let alloc = rt.alloc();
    let airs = list(&rt, alloc, [plain(&rt, alloc), memory(&rt, alloc)]);
    let none = list(&rt, alloc, [Vec::new(alloc), Vec::new(alloc)]);
    let refused = refusal(alloc, airs, list(&rt, alloc, [2, 2]), none);
    let named = match &refused {
        Some(EnforcementError::Flags(unshown)) => {
            let bus = match &unshown.bus {
                Some(bus) => bus.as_str() == "memory",
                None => false,
            };
            let first = Missing::Flag {
                flag: 0,
                kind: FIRST,
            };
            unshown.air == 1 && unshown.lookup == 1 && bus && unshown.missing == first
        }
        _ => false,
    };
    holds(&rt, "the group of the memory", named);
}

/// The weights of the plan are looked at before its flags: on four rows two lookups of weight 1 reach 7.
#[test]
fn a_plan_that_is_refused(rt: HostRuntime) {
    let alloc = rt.alloc();
    let airs = list(&rt, alloc, [memory(&rt, alloc)]);
    let none = list(&rt, alloc, [Vec::new(alloc)]);
    let refused = refusal(alloc, airs, list(&rt, alloc, [4]), none);
    let of_plan = matches!(&refused, Some(EnforcementError::Plan(_)));
    holds(&rt, "weights times heights", of_plan);
}

/// Three rows of one message each, of width 1: at most `1 * (3 - 1)` bad betas, and `2 * 3 - 1` alphas.
#[test]
fn bounds_by_heights(rt: HostRuntime) {
    let alloc = rt.alloc();
    let airs = list(&rt, alloc, [plain(&rt, alloc)]);
    let constraints = list(&rt, alloc, [bits(&rt, alloc)]);
    let plan = EnforcedPlan::new(alloc, airs, list(&rt, alloc, [3]), constraints);
    let plan = plan.expect(&rt, "no flags");
    let wanted = HeightSoundness {
        most_messages: 3,
        bad_betas: 2,
        accepting_alphas: Some(5),
    };
    holds(
        &rt,
        "three rows",
        plan.soundness_of_heights::<F7>() == Ok(wanted),
    );
    holds(&rt, "the ids", plan.plan().num_ids() == 1);
    holds(&rt, "the constraints", plan.constraints().len() == 1);
    flags_are_enforced::<F7>();
    queries_are_provided(plan.plan());
}

/// The plan of two AIRs without flags, whose local lookups have these ids below 3.
fn under(
    rt: &impl Abort,
    alloc: Global,
    ids: [usize; 2],
) -> Result<EnforcedPlan<F7>, EnforcementError> {
    let airs = list(rt, alloc, [plain(rt, alloc), plain(rt, alloc)]);
    let constraints = list(rt, alloc, [bits(rt, alloc), Vec::new(alloc)]);
    let [first, second] = ids;
    let ids = list(
        rt,
        alloc,
        [list(rt, alloc, [first]), list(rt, alloc, [second])],
    );
    EnforcedPlan::with_ids(alloc, airs, list(rt, alloc, [1, 1]), ids, 3, constraints)
}

/// Two local lookups need two ids.
#[test]
fn ids_that_are_given(rt: HostRuntime) {
    let alloc = rt.alloc();
    let plan = under(&rt, alloc, [2, 0]).expect(&rt, "two ids");
    holds(&rt, "the number of ids", plan.plan().num_ids() == 3);
    let refused = under(&rt, alloc, [2, 2]).err();
    let wanted = EnforcementError::Plan(BatchError::UnlawfulIds);
    holds(&rt, "one id for both", refused == Some(wanted));
}

/// Without AIRs there is no message.
#[test]
fn no_airs(rt: HostRuntime) {
    let alloc = rt.alloc();
    let plan = EnforcedPlan::<F7>::new(alloc, Vec::new(alloc), Vec::new(alloc), Vec::new(alloc));
    let plan = plan.expect(&rt, "a plan of nothing");
    let wanted = HeightSoundness {
        most_messages: 0,
        bad_betas: 0,
        accepting_alphas: None,
    };
    holds(
        &rt,
        "no rows",
        plan.soundness_of_heights::<F7>() == Ok(wanted),
    );
}

/// What a refusal says.
#[test]
fn texts(rt: HostRuntime) {
    let alloc = rt.alloc();
    let refused = EnforcementError::Flags(UnshownFlags {
        air: 3,
        lookup: 1,
        bus: Some(String::from_str(alloc, "memory").expect(&rt, "memory")),
        missing: Missing::Flag {
            flag: 0,
            kind: FIRST,
        },
    });
    let text = format!(in alloc; "{refused}").expect(&rt, "memory");
    let wanted = "air 3, lookup 1 on bus memory: flag 0 is not shown to be 0 or 1 on the first row";
    holds(&rt, "a group", text.as_str() == wanted);
    let refused = EnforcementError::Flags(UnshownFlags {
        air: 0,
        lookup: 2,
        bus: None,
        missing: Missing::Exclusive { kind: FIRST },
    });
    let text = format!(in alloc; "{refused}").expect(&rt, "memory");
    let wanted =
        "air 0, local lookup 2: it is not shown that at most one flag is 1 on the first row";
    holds(&rt, "a local lookup", text.as_str() == wanted);
}
