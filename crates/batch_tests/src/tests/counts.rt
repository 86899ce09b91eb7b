//! Counts of the messages of plans.
use super::proving::{group_plan, range_plan, witness};
use super::{alone, holds, shaped, trace};
use batch::{BatchError, BatchPlan, BatchTrace, HeightSoundness, SoundnessCount, Witness};
use field::{F7, PrimeCharacteristicRing};
use lookup::{Kind, LogUpGadget, LookupError, Lookups};
use std::alloc::Global;
use std::process::Abort;

/// Of the keys 3, 4 and 1 two do not balance, and of 3 and 4 in the second trace none.
#[test]
fn counts_of_the_range_machine(rt: HostRuntime) {
    let alloc = rt.alloc();
    let plan = range_plan::<F7>(&rt, alloc, 2);
    let main = trace(&rt, alloc, &[3, 1, 0, 4, 1, 0], 3);
    let counts = plan.soundness_count::<F7>(alloc, &[alone(&main)]);
    let two_of_three = SoundnessCount {
        messages: 3,
        unbalanced: 2,
        bad_betas: 1,
        accepting_alphas: Some(4),
    };
    holds(&rt, "two of three", counts == Ok(two_of_three));
    let main = trace(&rt, alloc, &[3, 4, 1, 4, 3, 1], 3);
    let counts = plan.soundness_count::<F7>(alloc, &[alone(&main)]);
    let none_of_two = SoundnessCount {
        messages: 2,
        unbalanced: 0,
        bad_betas: 0,
        accepting_alphas: None,
    };
    holds(&rt, "none of two", counts == Ok(none_of_two));
}

/// Cell 0 on a bus, and in a local lookup.
fn on_a_bus_and_local(rt: &impl Abort, alloc: Global) -> Lookups<F7> {
    let on_bus = shaped(rt, alloc, (Some("a"), &[1]), 1, 0);
    let local = shaped(rt, alloc, (None, &[1]), 1, 1);
    let records = Vec::from_array(alloc, [on_bus, local]).expect(rt, "memory");
    Lookups::from_records(alloc, records).expect(rt, "well formed")
}

/// The plan of two rows of one AIR.
fn of_two_rows(rt: &impl Abort, alloc: Global, set: Lookups<F7>) -> BatchPlan<F7> {
    let airs = Vec::from_array(alloc, [set]).expect(rt, "memory");
    let heights = Vec::from_array(alloc, [2]).expect(rt, "memory");
    BatchPlan::new(alloc, airs, heights).expect(rt, "a plan")
}

/// Packing puts the local lookup first, so it takes id 0, which was that of the bus. The rows send 3 and 4
/// under each id, once: four messages, none of which balances.
#[test]
fn packing_keeps_the_counts_of_a_plan(rt: HostRuntime) {
    let alloc = rt.alloc();
    let plan = of_two_rows(&rt, alloc, on_a_bus_and_local(&rt, alloc));
    let packed = on_a_bus_and_local(&rt, alloc)
        .pack_same_bus(alloc, &LogUpGadget::new(), 3)
        .expect(&rt, "packed");
    let moved = match packed.as_slice().first() {
        Some(first) => first.kind == Kind::Local,
        None => false,
    };
    holds(&rt, "the local lookup comes first", moved);
    let packed = of_two_rows(&rt, alloc, packed);
    plan.packing_keeps_counts::<F7>(&packed);
    let main = trace(&rt, alloc, &[3, 4], 1);
    let traces = [alone(&main)];
    let traces = traces.as_slice();
    let four = SoundnessCount {
        messages: 4,
        unbalanced: 4,
        bad_betas: 6,
        accepting_alphas: Some(7),
    };
    let before = plan.soundness_count::<F7>(alloc, traces);
    holds(&rt, "before", before == Ok(four));
    let after = packed.soundness_count::<F7>(alloc, traces);
    holds(&rt, "after", after == Ok(four));
}

/// The numbers of a plan by its heights.
fn by_heights(rt: &impl Abort, plan: &BatchPlan<F7>) -> HeightSoundness {
    plan.laws();
    plan.soundness_of_heights::<F7>()
        .expect(rt, "small numbers")
}

/// Two rows that each read a key and provide one have four messages: W = 1, so 1 * (4 - 1) betas and
/// 2 * 4 - 1 alphas. Two AIRs of one row with a group of two branches have one each. Three rows of a pair, and
/// one of two tuples, have 3 + 2, where W = 2.
#[test]
fn bounds_by_heights(rt: HostRuntime) {
    let alloc = rt.alloc();
    let range = by_heights(&rt, &range_plan::<F7>(&rt, alloc, 2));
    let of_range = HeightSoundness {
        most_messages: 4,
        bad_betas: 3,
        accepting_alphas: Some(7),
    };
    holds(&rt, "two rows of two tuples", range == of_range);
    let groups = by_heights(&rt, &group_plan(&rt, alloc, 2));
    let of_groups = HeightSoundness {
        most_messages: 2,
        bad_betas: 1,
        accepting_alphas: Some(3),
    };
    holds(&rt, "two groups", groups == of_groups);
    let wide = shaped(&rt, alloc, (Some("a"), &[2]), 1, 0);
    let narrow = shaped(&rt, alloc, (None, &[1, 1]), 1, 0);
    let wide = Vec::from_array(alloc, [wide]).expect(&rt, "memory");
    let narrow = Vec::from_array(alloc, [narrow]).expect(&rt, "memory");
    let wide = Lookups::from_records(alloc, wide).expect(&rt, "well formed");
    let narrow = Lookups::from_records(alloc, narrow).expect(&rt, "well formed");
    let airs = Vec::from_array(alloc, [wide, narrow]).expect(&rt, "memory");
    let heights = Vec::from_array(alloc, [3, 1]).expect(&rt, "memory");
    let both = BatchPlan::new(alloc, airs, heights).expect(&rt, "a plan");
    let of_both = HeightSoundness {
        most_messages: 5,
        bad_betas: 8,
        accepting_alphas: Some(9),
    };
    holds(
        &rt,
        "three wide rows and two tuples",
        by_heights(&rt, &both) == of_both,
    );
    let none = by_heights(&rt, &group_plan(&rt, alloc, 0));
    let of_none = HeightSoundness {
        most_messages: 0,
        bad_betas: 0,
        accepting_alphas: None,
    };
    holds(&rt, "no AIR", none == of_none);
}

/// 1 where the plan accepts this witness, if there is one, and 0 elsewhere. Where it does, it has to count
/// the pair.
fn accepted(
    rt: &impl Abort,
    alloc: Global,
    plan: &BatchPlan<F7>,
    traces: &[BatchTrace<'_, F7>],
    (alpha, beta): (F7, F7),
    given: Option<Witness<F7>>,
) -> u32 {
    let Some(given) = given else {
        return 0;
    };
    if plan.verify(alloc, traces, alpha, beta, &given).is_err() {
        return 0;
    }
    let counts = plan.grid_count(alloc, traces, &[alpha], &[beta]);
    holds(rt, "one pair", counts.expect(rt, "no flags").accepted == 1);
    1
}

/// The keys 3 and 4 are read once, and 1 is provided no time, all at the prefix alpha + beta. What is
/// generated adds 1 / (0 - 3) + 1 / (0 - 4) = 2 + 5 = 0 at the prefix 0, and is accepted there alone. At the
/// prefix 1 the denominator of 1 vanishes, and the fractions are free: there the witness of zeros is
/// accepted, and elsewhere it is not. So each beta has two alphas, within the bound of four.
#[test]
fn what_is_accepted_is_counted(rt: HostRuntime) {
    let alloc = rt.alloc();
    let plan = range_plan::<F7>(&rt, alloc, 2);
    let main = trace(&rt, alloc, &[3, 1, 0, 4, 1, 0], 3);
    let traces = [alone(&main)];
    let traces = traces.as_slice();
    for beta in 0..7u32 {
        let (mut made, mut zeros) = (0u32, 0u32);
        for alpha in 0..7u32 {
            let pair = (F7::from_u32(alpha), F7::from_u32(beta));
            let own = plan.prove(alloc, traces, pair.0, pair.1).ok();
            made = made.saturating_add(accepted(&rt, alloc, &plan, traces, pair, own));
            let zero = Some(witness(&rt, alloc, &[&[0, 0, 0, 0]], &[Some(0)]));
            zeros = zeros.saturating_add(accepted(&rt, alloc, &plan, traces, pair, zero));
        }
        holds(&rt, "one alpha each", made == 1 && zeros == 1);
    }
}

/// The traces come before the flags.
#[test]
fn refusals_of_counts(rt: HostRuntime) {
    let alloc = rt.alloc();
    let plan = group_plan(&rt, alloc, 2);
    let (good, bad) = (
        trace(&rt, alloc, &[1, 3, 0, 5], 4),
        trace(&rt, alloc, &[2, 3, 0, 5], 4),
    );
    let high = trace(&rt, alloc, &[2, 3, 0, 5, 2, 3, 0, 5], 4);
    let flags = plan.soundness_count::<F7>(alloc, &[alone(&good), alone(&bad)]);
    let error = LookupError::FlagNotBoolean { row: 0, lookup: 0 };
    let refusal = Err(BatchError::Air { air: 1, error });
    holds(&rt, "a flag of 2", flags == refusal);
    let unfit = plan.soundness_count::<F7>(alloc, &[alone(&bad), alone(&high)]);
    let refusal = Err(BatchError::TraceMismatch { air: 1 });
    holds(&rt, "two rows", unfit == refusal);
}
