//! What an `InteractionSymbolicBuilder` records.
use super::declaration::{read, table};
use super::{
    Recorder, constant, constants, holds, is_branch, is_tuple, list, once, recorded_counts,
    recorder,
};
use air::{
    AirBuilder, AirLayout, BaseEntry, ExtLeaf, ExtensionBuilder, PermutationAirBuilder,
    SymbolicExpressionExt,
};
use lookup_record::{Count, IndexedLookupBuilder, InteractionBuilder, TraceWindow};
use matrix::WindowAccess;
use std::alloc::Global;
use std::process::Abort;

/// Whether the one local lookup that is recorded has this tuple at this index.
fn has_tuple(recorder: &Recorder, index: usize, fields: &[u32], weight: u64) -> bool {
    match recorder.local_interactions().first() {
        Some(local) => is_tuple(local.tuples.as_slice().get(index), fields, weight),
        None => false,
    }
}

#[test]
fn local_lookups_keep_their_tuples(rt: HostRuntime) {
    let alloc = rt.alloc();
    let mut recorder = recorder(&rt, alloc);
    let query = (constants(&rt, alloc, &[3]), once());
    let entry = (constants(&rt, alloc, &[4, 5]), Count::provided(constant(2)));
    let tuples = list(&rt, alloc, [query, entry]);
    recorder
        .push_local_interaction(alloc, tuples)
        .expect(&rt, "memory");
    let counts = recorded_counts(&recorder);
    holds(&rt, "one local lookup", counts == [0, 1, 0, 0, 0]);
    holds(&rt, "the query", has_tuple(&recorder, 0, &[3], 1));
    holds(&rt, "the entry", has_tuple(&recorder, 1, &[4, 5], 0));
    holds(&rt, "no third tuple", !has_tuple(&recorder, 2, &[], 0));
    drop(recorder);
}

/// Whether the recorded group at this index is on this bus and has as many branches.
fn is_group(recorder: &Recorder, index: usize, bus: &str, branches: usize) -> bool {
    match recorder.exclusive_interactions().get(index) {
        Some(group) => group.bus_name.as_str() == bus && group.branches.len() == branches,
        None => false,
    }
}

/// Whether the first recorded group has this branch at this index, of one field.
fn has_branch(
    recorder: &Recorder,
    index: usize,
    flag: u32,
    count: u32,
    field: u32,
    weight: u64,
) -> bool {
    match recorder.exclusive_interactions().first() {
        Some(group) => {
            let branch = group.branches.as_slice().get(index);
            is_branch(branch, flag, count, &[field], weight)
        }
        None => false,
    }
}

#[test]
fn groups_keep_their_branches(rt: HostRuntime) {
    let alloc = rt.alloc();
    let mut recorder = recorder(&rt, alloc);
    let (three, six) = (constants(&rt, alloc, &[3]), constants(&rt, alloc, &[6]));
    let first = (constant(1), Count::bounded(constant(4), 2), three);
    let second = (constant(0), Count::bounded(constant(5), 5), six);
    let both = list(&rt, alloc, [first, second]);
    for (bus, branches) in list(&rt, alloc, [("b", both), ("empty", Vec::new(alloc))]) {
        recorder
            .push_exclusive_interaction(alloc, bus, branches)
            .expect(&rt, "memory");
    }
    let counts = recorded_counts(&recorder);
    holds(&rt, "two groups", counts == [0, 0, 2, 0, 0]);
    holds(&rt, "the first group", is_group(&recorder, 0, "b", 2));
    holds(&rt, "the second group", is_group(&recorder, 1, "empty", 0));
    holds(&rt, "a branch", has_branch(&recorder, 0, 1, 4, 3, 2));
    holds(&rt, "another", has_branch(&recorder, 1, 0, 5, 6, 5));
    drop(recorder);
}

/// Declares a read of the columns 1 and 2 in the table `t`, and a table `t` of the preprocessed
/// columns 1 and 3.
fn declare(rt: &impl Abort, alloc: Global, recorder: &mut Recorder) {
    let payload = list(rt, alloc, [1, 2]);
    recorder
        .push_indexed_read(alloc, "t", 0, payload)
        .expect(rt, "memory");
    let columns = list(rt, alloc, [1, 3]);
    let window = TraceWindow::Preprocessed;
    recorder
        .push_indexed_table(alloc, "t", window, columns)
        .expect(rt, "memory");
}

#[test]
fn declarations_are_recorded_in_order(rt: HostRuntime) {
    let alloc = rt.alloc();
    let mut recorder = recorder(&rt, alloc);
    declare(&rt, alloc, &mut recorder);
    let counts = recorded_counts(&recorder);
    holds(&rt, "one of each", counts == [0, 0, 0, 1, 1]);
    let reads = [read(&rt, alloc, "t", 0, &[1, 2])];
    let is_read = recorder.indexed_reads() == reads.as_slice();
    holds(&rt, "the read", is_read);
    let tables = [table(&rt, alloc, "t", TraceWindow::Preprocessed, &[1, 3])];
    let is_provided = recorder.indexed_tables() == tables.as_slice();
    holds(&rt, "the table", is_provided);
    drop(recorder);
}

/// Asserts the first cell of the permutation trace, a constant of the base field, the first challenge
/// and the first permutation value.
fn assert_all(rt: &impl Abort, alloc: Global, recorder: &mut Recorder) {
    let rows = recorder.permutation(alloc).expect(rt, "memory");
    let cell = rows.current(0).expect(rt, "a cell");
    let challenge = recorder.permutation_randomness().first().copied();
    let challenge = challenge.expect(rt, "a challenge");
    let terminal = recorder.permutation_values().first().copied();
    let terminal = terminal.expect(rt, "a permutation value");
    let first = recorder.assert_zero_ext(alloc, cell.into());
    first.expect(rt, "memory");
    let base = recorder.assert_zero(alloc, constant(2));
    base.expect(rt, "memory");
    for variable in [challenge, terminal] {
        let asserted = recorder.assert_zero_ext(alloc, variable.into());
        asserted.expect(rt, "memory");
    }
}

/// Whether the recorder has one base constraint and three of the extension, of which the first is
/// a leaf.
fn has_constraints(rt: &impl Abort, alloc: Global, recorder: &Recorder) -> bool {
    let base = recorder.base_constraints(alloc).expect(rt, "memory");
    let extension = recorder.extension_constraints(alloc).expect(rt, "memory");
    let is_leaf = matches!(extension.first(), Some(SymbolicExpressionExt::Leaf(_)));
    base.len() == 1 && extension.len() == 3 && is_leaf
}

/// Whether the constraints of the recorder have these indices in the order of all assertions.
fn has_indices(
    rt: &impl Abort,
    alloc: Global,
    recorder: &Recorder,
    base: &[usize],
    extension: &[usize],
) -> bool {
    let indices = recorder.constraint_layout(alloc).expect(rt, "memory");
    indices.base_indices.as_slice() == base && indices.ext_indices.as_slice() == extension
}

#[test]
fn constraints_are_recorded_beside(rt: HostRuntime) {
    let alloc = rt.alloc();
    let mut recorder = recorder(&rt, alloc);
    assert_all(&rt, alloc, &mut recorder);
    let are_there = has_constraints(&rt, alloc, &recorder);
    holds(&rt, "the constraints", are_there);
    let are_in_order = has_indices(&rt, alloc, &recorder, &[1], &[0, 2, 3]);
    holds(&rt, "their places", are_in_order);
    drop(recorder);
}

/// The entry of the next row's cell in column 1 of the preprocessed trace.
fn fixed_entry(recorder: &Recorder) -> Option<BaseEntry> {
    Some(recorder.preprocessed().next(1)?.entry)
}

/// The index of the third public value.
fn public_index(recorder: &Recorder) -> Option<usize> {
    Some(recorder.public_values().get(2)?.index)
}

/// Whether the selector of the last row is lifted to a base expression.
fn is_lifted(recorder: &Recorder) -> bool {
    let last = Recorder::lift(recorder.is_last_row());
    matches!(last, SymbolicExpressionExt::Leaf(ExtLeaf::Base(_)))
}

#[test]
fn variables_are_handed_out(rt: HostRuntime) {
    let layout = AirLayout {
        preprocessed_width: 2,
        num_public_values: 3,
        ..AirLayout::default()
    };
    let recorder = Recorder::new(rt.alloc(), layout).expect(&rt, "memory");
    let fixed = BaseEntry::Preprocessed { offset: 1 };
    let is_fixed = fixed_entry(&recorder) == Some(fixed);
    holds(&rt, "a fixed cell", is_fixed);
    holds(&rt, "a public value", public_index(&recorder) == Some(2));
    holds(&rt, "a lifted selector", is_lifted(&recorder));
    drop(recorder);
}
