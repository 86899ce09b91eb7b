//! Plans over ids that they are given.
use super::numbering::{name_of, next};
use super::proving::{BALANCED, range_plan, range_set};
use super::refusals::{heavy, text};
use super::{Shape, airs_of, alone, has_result, holds, list_of, trace};
use batch::{BatchError, BatchPlan, BatchTrace, Witness};
use field::{F7, Field, PrimeCharacteristicRing};
use field_monty::BabyBear;
use lookup::LookupError;
use std::alloc::Global;
use std::process::Abort;

/// The lists of these ids.
fn lists(rt: &impl Abort, alloc: Global, ids: &[&[usize]]) -> Vec<Vec<usize>> {
    let mut lists = Vec::new(alloc);
    for list in ids {
        lists.push(list_of(rt, alloc, list)).expect(rt, "memory");
    }
    lists
}

/// The plan of sets of lookups of this weight over these ids. Traces have one row.
fn given(
    rt: &impl Abort,
    alloc: Global,
    sets: &[&[Shape<'_>]],
    weight: u64,
    ids: &[&[usize]],
    num_ids: usize,
) -> Result<BatchPlan<F7>, BatchError> {
    let heights: &[usize] = &[1, 1, 1];
    let own = list_of(rt, alloc, heights.get(..sets.len()).unwrap_or(&[]));
    let airs = airs_of(rt, alloc, sets, weight);
    BatchPlan::with_ids(alloc, airs, own, lists(rt, alloc, ids), num_ids)
}

const ONE: &[usize] = &[1];

/// Two lookups on a bus, in two AIRs; a local one; and one on another bus. `BatchPlan::new` gives them the
/// ids 0 and 1, and 2 and 0.
const SETS: &[&[Shape<'static>]] = &[
    &[(Some("a"), ONE), (None, ONE)],
    &[(Some("b"), ONE), (Some("a"), ONE)],
];

/// Fails unless there is a plan of those AIRs with these ids, and so many.
fn expect_plan(rt: &impl Abort, alloc: Global, ids: &[&[usize]], num_ids: usize) {
    let made = given(rt, alloc, SETS, 0, ids, num_ids).expect(rt, "a plan");
    for (own, wanted) in made.ids().iter().zip(ids) {
        holds(rt, "the ids", own.as_slice() == *wanted);
    }
    holds(rt, "one list for each AIR", made.ids().len() == ids.len());
    let sizes = made.num_ids() == num_ids && made.max_message_width() == 1;
    holds(rt, "its sizes", sizes);
}

/// The ids of `new`, in another order, and with ids that no lookup has. There can be as many as the
/// characteristic.
#[test]
fn ids_in_any_order(rt: HostRuntime) {
    let alloc = rt.alloc();
    expect_plan(&rt, alloc, &[&[0, 1], &[2, 0]], 3);
    expect_plan(&rt, alloc, &[&[2, 0], &[1, 2]], 3);
    expect_plan(&rt, alloc, &[&[6, 3], &[0, 6]], 7);
    let none = given(&rt, alloc, &[], 0, &[], 0);
    holds(&rt, "no AIR", none.is_ok());
    let empty = given(&rt, alloc, &[&[], &[]], 0, &[&[], &[]], 2);
    holds(&rt, "AIRs without lookups", empty.is_ok());
}

/// Fails unless the ids of those AIRs are not lawful.
fn expect_unlawful(rt: &impl Abort, alloc: Global, ids: &[&[usize]], num_ids: usize) {
    let refused = given(rt, alloc, SETS, 0, ids, num_ids).err();
    assert!(rt; refused == Some(BatchError::UnlawfulIds));
}

/// Lists that are missing or too many, or too short or too long.
#[test]
fn an_id_for_each_lookup(rt: HostRuntime) {
    let alloc = rt.alloc();
    expect_unlawful(&rt, alloc, &[], 3);
    expect_unlawful(&rt, alloc, &[&[0, 1]], 3);
    expect_unlawful(&rt, alloc, &[&[0, 1], &[2, 0], &[]], 3);
    expect_unlawful(&rt, alloc, &[&[0], &[2, 0]], 3);
    expect_unlawful(&rt, alloc, &[&[0, 1], &[2, 0, 3]], 4);
    expect_unlawful(&rt, alloc, &[&[0, 1, 2], &[0]], 3);
}

/// An id that is not below the number of ids; a bus with two ids; two buses with one; and a local lookup with
/// the id of a bus, or of another one in its AIR or in the next.
#[test]
fn ids_that_are_not_shared_by_bus(rt: HostRuntime) {
    let alloc = rt.alloc();
    expect_unlawful(&rt, alloc, &[&[0, 1], &[3, 0]], 3);
    expect_unlawful(&rt, alloc, &[&[0, 1], &[2, 0]], 2);
    expect_unlawful(&rt, alloc, &[&[0, 1], &[2, 3]], 4);
    expect_unlawful(&rt, alloc, &[&[0, 1], &[0, 0]], 3);
    expect_unlawful(&rt, alloc, &[&[0, 0], &[2, 0]], 3);
    expect_unlawful(&rt, alloc, &[&[0, 2], &[2, 0]], 3);
    let locals: &[&[Shape<'_>]] = &[&[(None, ONE), (None, ONE)]];
    let refused = given(&rt, alloc, locals, 0, &[&[1, 1]], 2).err();
    holds(&rt, "an AIR", refused == Some(BatchError::UnlawfulIds));
    let locals: &[&[Shape<'_>]] = &[&[(None, ONE)], &[(None, ONE)]];
    let refused = given(&rt, alloc, locals, 0, &[&[0], &[0]], 2).err();
    holds(&rt, "two AIRs", refused == Some(BatchError::UnlawfulIds));
}

/// Heights and widths come before ids.
#[test]
fn lengths_and_widths_before_ids(rt: HostRuntime) {
    let alloc = rt.alloc();
    let airs = airs_of::<F7>(&rt, alloc, SETS, 0);
    let heights = list_of(&rt, alloc, &[1]);
    let refused = BatchPlan::with_ids(alloc, airs, heights, Vec::new(alloc), 3).err();
    let few = BatchError::LengthMismatch {
        expected: 2,
        actual: 1,
    };
    holds(&rt, "heights", refused == Some(few));
    let uneven: &[usize] = &[1, 2];
    let bus = LookupError::BusWidthMismatch {
        bus: text(&rt, alloc, "a"),
        expected: 1,
        actual: 2,
    };
    let refused = given(&rt, alloc, &[&[(Some("a"), uneven)]], 0, &[], 1).err();
    holds(&rt, "a bus", refused == Some(BatchError::Lookup(bus)));
    let local = LookupError::TupleWidths {
        context: text(&rt, alloc, "air 0 local lookup 0"),
        width: 1,
        other: 2,
    };
    let refused = given(&rt, alloc, &[&[(None, uneven)]], 0, &[], 1).err();
    holds(
        &rt,
        "a local lookup",
        refused == Some(BatchError::Lookup(local)),
    );
}

/// Ids come before their number, and this before weights times heights.
#[test]
fn ids_before_sizes(rt: HostRuntime) {
    let alloc = rt.alloc();
    expect_unlawful(&rt, alloc, &[&[0, 1], &[0, 0]], 8);
    let refused = given(&rt, alloc, SETS, 7, &[&[0, 1], &[2, 0]], 8).err();
    let many = BatchError::TooManyIds { ids: 8 };
    holds(&rt, "eight ids", refused == Some(many));
    let refused = given(&rt, alloc, SETS, 2, &[&[0, 1], &[2, 0]], 7).err();
    holds(&rt, "weights", refused == Some(heavy(8, 3)));
}

/// The plan of the range machine, over rows that balance, with these ids.
fn range_given<F: Field>(
    rt: &impl Abort,
    alloc: Global,
    ids: &[&[usize]],
    num_ids: usize,
) -> BatchPlan<F> {
    let (mut airs, mut heights) = (Vec::new(alloc), Vec::new(alloc));
    for _ in ids {
        airs.push(range_set(rt, alloc)).expect(rt, "memory");
        heights.push(2).expect(rt, "memory");
    }
    BatchPlan::with_ids(alloc, airs, heights, lists(rt, alloc, ids), num_ids).expect(rt, "a plan")
}

/// The prefix of id 1 at alpha 3 and beta 2 is `3 + 2 * 2`, which is 0 in `F7`. It is that of id 0 at alpha 5
/// and beta 2, where the fractions of these rows are 4 and 3. Under id 0, or at alpha 5, the prefix is
/// another one, and the first row fails.
#[test]
fn a_witness_under_another_id(rt: HostRuntime) {
    let alloc = rt.alloc();
    let plan = range_given::<F7>(&rt, alloc, &[&[1]], 2);
    let main = trace(&rt, alloc, BALANCED.as_slice(), 3);
    let traces = [alone(&main)];
    let (alpha, beta) = (F7::from_u32(3), F7::from_u32(2));
    let made = plan.prove(alloc, traces.as_slice(), alpha, beta);
    let made = made.expect(&rt, "no fault");
    let cells = [0, 4, 4, 3].map(F7::new);
    let right = has_result(&made, 0, cells.as_slice(), F7::ZERO);
    holds(&rt, "the result", right);
    let answer = plan.verify(alloc, traces.as_slice(), alpha, beta, &made);
    holds(&rt, "accepted", answer.is_ok());
    let failed = LookupError::ConstraintFailed { air: 0, row: 0 };
    let failed = Err(BatchError::Lookup(failed));
    let answer = plan.verify(alloc, traces.as_slice(), F7::from_u32(5), beta, &made);
    holds(&rt, "another alpha", answer == failed);
    let other = range_plan::<F7>(&rt, alloc, 2);
    let answer = other.verify(alloc, traces.as_slice(), alpha, beta, &made);
    holds(&rt, "another id", answer == failed);
}

/// Whether one witness has at an AIR what the other has at another one.
fn is_exchanged(
    one: &Witness<BabyBear>,
    air: usize,
    other: &Witness<BabyBear>,
    there: usize,
) -> bool {
    match (one.aux.get(air), other.aux.get(there)) {
        (Some(a), Some(b)) => a.values() == b.values(),
        _ => false,
    }
}

/// Two AIRs with the same rows, whose ids are exchanged: so are their auxiliary traces, and only the plan with
/// the same ids accepts them.
#[test]
fn two_ids_that_are_exchanged(rt: HostRuntime) {
    let alloc = rt.alloc();
    let ordered = range_given::<BabyBear>(&rt, alloc, &[&[0], &[1]], 2);
    let exchanged = range_given::<BabyBear>(&rt, alloc, &[&[1], &[0]], 2);
    let main = trace(&rt, alloc, BALANCED.as_slice(), 3);
    let traces: [BatchTrace<'_, BabyBear>; 2] = [alone(&main), alone(&main)];
    let (alpha, beta) = (BabyBear::new(100), BabyBear::new(10));
    let first = ordered.prove(alloc, traces.as_slice(), alpha, beta);
    let first = first.expect(&rt, "no fault");
    let second = exchanged.prove(alloc, traces.as_slice(), alpha, beta);
    let second = second.expect(&rt, "no fault");
    let crossed = is_exchanged(&first, 0, &second, 1) && is_exchanged(&first, 1, &second, 0);
    holds(&rt, "the traces", crossed);
    holds(&rt, "two of them", !is_exchanged(&first, 0, &second, 0));
    let answer = exchanged.verify(alloc, traces.as_slice(), alpha, beta, &second);
    holds(&rt, "accepted", answer.is_ok());
    let answer = exchanged.verify(alloc, traces.as_slice(), alpha, beta, &first);
    let failed = LookupError::ConstraintFailed { air: 0, row: 0 };
    holds(&rt, "refused", answer == Err(BatchError::Lookup(failed)));
}

/// Whether any two of these names are one exactly if their ids are, where no name is its own.
fn are_shared_by_name(names: &[Option<&str>], ids: &[usize]) -> bool {
    for (i, (name, id)) in names.iter().zip(ids).enumerate() {
        for (j, (other, other_id)) in names.iter().zip(ids).enumerate() {
            let is_one = i == j || (name.is_some() && name == other);
            if is_one != (id == other_id) {
                return false;
            }
        }
    }
    true
}

/// Two thousand plans of two AIRs with two lookups each, and ids below 5 of which 4 are given, drawn at
/// random.
#[test]
fn ids_drawn_at_random(rt: HostRuntime) {
    let alloc = rt.alloc();
    let mut drawn = 2026u32;
    let (mut lawful, mut unlawful) = (false, false);
    for _ in 0..2000 {
        let a = next(drawn);
        let (b, c) = (next(a), next(next(a)));
        let d = next(c);
        drawn = next(d);
        let names = [a, b, c, d].map(name_of);
        let first: &[Shape<'_>] = &[(name_of(a), ONE), (name_of(b), ONE)];
        let second: &[Shape<'_>] = &[(name_of(c), ONE), (name_of(d), ONE)];
        let ids = [a, b, c, d].map(id_of);
        let own: &[&[usize]] = &[&ids[..2], &ids[2..]];
        let made = given(&rt, alloc, &[first, second], 0, own, 4).is_ok();
        let below = ids.iter().all(|id| *id < 4);
        let wanted = below && are_shared_by_name(names.as_slice(), ids.as_slice());
        holds(&rt, "lawful ids", made == wanted);
        lawful |= made;
        unlawful |= !made;
    }
    holds(&rt, "both are met", lawful && unlawful);
}

/// What a number draws by its lower half: an id below 5.
fn id_of(number: u32) -> usize {
    ((number >> 4) % 5) as usize
}
