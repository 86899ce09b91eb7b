//! Plans whose weights are shown to be kept, so that queries are provided.
use super::plans::{memory, plain};
use super::{bits, holds, list};
use batch_enforced::{EnforcedPlan, UnshownWeight, WeightError};
use field::F7;
use std::alloc::Global;
use std::process::Abort;

/// The plan of an AIR with a local lookup and of one with a group too, whose cells are bits if it is said so of the
/// AIR.
fn plan(rt: &impl Abort, alloc: Global, known: [bool; 2]) -> EnforcedPlan<F7> {
    let airs = list(rt, alloc, [plain(rt, alloc), memory(rt, alloc)]);
    let mut constraints = Vec::new(alloc);
    for are_bits in known {
        let own = if are_bits {
            bits(rt, alloc)
        } else {
            Vec::new(alloc)
        };
        constraints.push(own).expect(rt, "memory");
    }
    let heights = list(rt, alloc, [2, 1]);
    EnforcedPlan::new(alloc, airs, heights, constraints).expect(rt, "flags that are enforced")
}

/// Which tuples of both AIRs are queries: that of the first one or not, and all of the second, of which so many lookups
/// are told.
fn queries(rt: &impl Abort, alloc: Global, first: bool, lookups: usize) -> Vec<Vec<Vec<bool>>> {
    let mut second = Vec::new(alloc);
    if lookups > 0 {
        second.push(list(rt, alloc, [true])).expect(rt, "memory");
    }
    if lookups > 1 {
        second
            .push(list(rt, alloc, [true, true]))
            .expect(rt, "memory");
    }
    let first = list(rt, alloc, [list(rt, alloc, [first])]);
    list(rt, alloc, [first, second])
}

/// A row that is real queries once, and a group sends one tuple at most.
#[test]
fn weights_that_are_kept(rt: HostRuntime) {
    let alloc = rt.alloc();
    let made = plan(&rt, alloc, [true, true]);
    let queries = queries(&rt, alloc, true, 2);
    let kept = made.check_weights(alloc, queries.as_slice()).is_ok();
    holds(&rt, "kept", kept);
    let plan = made.plan();
    let last = plan.airs().last().expect(&rt, "two AIRs");
    let two = plan.airs().len() == 2 && last.as_slice().len() == 2;
    holds(&rt, "the AIRs", two);
    holds(&rt, "the heights", plan.heights() == [2, 1].as_slice());
}

/// Nothing is known of the count of the first AIR. As a provided entry it needs no bound.
#[test]
fn a_count_without_a_bound(rt: HostRuntime) {
    let alloc = rt.alloc();
    let made = plan(&rt, alloc, [false, true]);
    let query = queries(&rt, alloc, true, 2);
    let refused = made.check_weights(alloc, query.as_slice());
    let wanted = WeightError::Weight(UnshownWeight {
        air: 0,
        lookup: 0,
        bus: None,
    });
    holds(&rt, "a query", refused == Err(wanted));
    let entry = queries(&rt, alloc, false, 2);
    let kept = made.check_weights(alloc, entry.as_slice()).is_ok();
    holds(&rt, "an entry", kept);
}

/// There is a list for each AIR, and for each of its lookups.
#[test]
fn queries_of_other_numbers(rt: HostRuntime) {
    let alloc = rt.alloc();
    let made = plan(&rt, alloc, [true, true]);
    let queries = queries(&rt, alloc, true, 1);
    let refused = made.check_weights(alloc, queries.as_slice());
    let wanted = WeightError::LookupMismatch {
        air: 1,
        expected: 2,
        actual: 1,
    };
    holds(&rt, "one of two", refused == Err(wanted));
    let refused = made.check_weights(alloc, &[]);
    let wanted = WeightError::LengthMismatch {
        expected: 2,
        actual: 0,
    };
    holds(&rt, "none", refused == Err(wanted));
}

/// Without AIRs there is nothing to keep.
#[test]
fn no_weights(rt: HostRuntime) {
    let alloc = rt.alloc();
    let made = EnforcedPlan::<F7>::new(alloc, Vec::new(alloc), Vec::new(alloc), Vec::new(alloc));
    let made = made.expect(&rt, "a plan of nothing");
    let kept = made.check_weights(alloc, &[]).is_ok();
    holds(&rt, "kept", kept);
}

/// What a refusal says.
#[test]
fn texts(rt: HostRuntime) {
    let alloc = rt.alloc();
    let refused = WeightError::Weight(UnshownWeight {
        air: 3,
        lookup: 1,
        bus: Some(String::from_str(alloc, "memory").expect(&rt, "memory")),
    });
    let text = format!(in alloc; "{refused}").expect(&rt, "memory");
    let wanted =
        "air 3, lookup 1 on bus memory: its queries are not shown to stay within its weight";
    holds(&rt, "on a bus", text.as_str() == wanted);
}
