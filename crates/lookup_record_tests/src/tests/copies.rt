//! Copies of records.
use super::{constant, constants, holds, is_branch, is_message, is_tuple, list, once};
use field::F7;
use lookup_record::{
    SymbolicExclusiveBranch, SymbolicExclusiveInteraction, SymbolicInteraction,
    SymbolicLocalInteraction,
};
use std::alloc::Global;
use std::process::Abort;

/// A message on `a`.
fn message(rt: &impl Abort, alloc: Global) -> SymbolicInteraction<F7> {
    SymbolicInteraction {
        bus_name: String::from_str(alloc, "a").expect(rt, "memory"),
        fields: constants(rt, alloc, &[1, 2]),
        count: constant(3),
        count_weight: 4,
    }
}

#[test]
fn messages_are_copied(rt: HostRuntime) {
    let alloc = rt.alloc();
    let copy = message(&rt, alloc).copy(alloc).expect(&rt, "a copy");
    holds(&rt, "the copy", is_message(Some(&copy), "a", &[1, 2], 3, 4));
    drop(copy);
}

#[test]
fn local_lookups_are_copied(rt: HostRuntime) {
    let alloc = rt.alloc();
    let tuples = list(&rt, alloc, [(constants(&rt, alloc, &[1, 2]), once())]);
    let local = SymbolicLocalInteraction { tuples };
    let copy = local.copy(alloc).expect(&rt, "a copy");
    holds(&rt, "one tuple", copy.tuples.len() == 1);
    holds(
        &rt,
        "the tuple",
        is_tuple(copy.tuples.as_slice().first(), &[1, 2], 1),
    );
}

/// A branch of one field.
fn branch(rt: &impl Abort, alloc: Global) -> SymbolicExclusiveBranch<F7> {
    SymbolicExclusiveBranch {
        flag: constant(1),
        count: constant(2),
        fields: constants(rt, alloc, &[3]),
        count_weight: 4,
    }
}

/// Whether this is that branch.
fn is_the_branch(branch: Option<&SymbolicExclusiveBranch<F7>>) -> bool {
    is_branch(branch, 1, 2, &[3], 4)
}

#[test]
fn branches_are_copied(rt: HostRuntime) {
    let alloc = rt.alloc();
    let copy = branch(&rt, alloc).copy(alloc).expect(&rt, "a copy");
    holds(&rt, "the branch", is_the_branch(Some(&copy)));
    drop(copy);
}

/// The copy of a group of one branch on `b`.
fn copied_group(rt: &impl Abort, alloc: Global) -> SymbolicExclusiveInteraction<F7> {
    let group = SymbolicExclusiveInteraction {
        bus_name: String::from_str(alloc, "b").expect(rt, "memory"),
        branches: list(rt, alloc, [branch(rt, alloc)]),
    };
    group.copy(alloc).expect(rt, "a copy")
}

#[test]
fn groups_are_copied(rt: HostRuntime) {
    let copy = copied_group(&rt, rt.alloc());
    holds(&rt, "the bus", copy.bus_name.as_str() == "b");
    holds(&rt, "one branch", copy.branches.len() == 1);
    let branch = copy.branches.as_slice().first();
    holds(&rt, "the branch", is_the_branch(branch));
    drop(copy);
}
