//! What calls of buses hand to a recorder.
use super::{Call, Recorder, holds, is_branch, is_message, recorded, recorded_counts};
use lookup_record::{LookupBus, PermutationCheckBus};

/// Whether a lookup bus and a copy of it have this name.
fn is_lookup_bus(name: &str) -> bool {
    let bus = LookupBus::new(name);
    match bus.clone() {
        Ok(copy) => bus.name() == name && copy.name() == name,
        Err(_) => false,
    }
}

/// Whether a permutation bus and a copy of it have this name.
fn is_permutation_bus(name: &str) -> bool {
    let bus = PermutationCheckBus::new(name);
    match bus.clone() {
        Ok(copy) => bus.name() == name && copy.name() == name,
        Err(_) => false,
    }
}

#[test]
fn buses_keep_their_names(rt: HostRuntime) {
    holds(&rt, "memory", is_lookup_bus("memory"));
    holds(&rt, "dispatch", is_permutation_bus("dispatch"));
}

/// Whether the messages of a recorder are these, each a bus, its fields, its count modulo 7 and its
/// weight, in this order.
fn are_recorded(recorder: &Recorder, messages: &[(&str, &[u32], u32, u64)]) -> bool {
    for (index, (bus, fields, count, weight)) in messages.iter().enumerate() {
        let message = recorder.global_interactions().get(index);
        if !is_message(message, bus, fields, *count, *weight) {
            return false;
        }
    }
    recorded_counts(recorder) == [messages.len(), 0, 0, 0, 0]
}

/// A query weighs 1, and an entry nothing; what is received counts down. Buses are told apart by their
/// names.
#[test]
fn messages_are_recorded_in_order(rt: HostRuntime) {
    let alloc = rt.alloc();
    let calls: [(&str, Call<'_>); 6] = [
        ("mem", Call::Query(&[1, 2])),
        ("mem", Call::Provide(&[1], 1)),
        ("dispatch", Call::Send(&[1])),
        ("dispatch", Call::Receive(&[2])),
        ("memory", Call::Query(&[1])),
        ("range_check", Call::Query(&[2])),
    ];
    let recorder = recorded(&rt, alloc, calls.as_slice());
    let messages: [(&str, &[u32], u32, u64); 6] = [
        ("mem", &[1, 2], 1, 1),
        ("mem", &[1], 6, 0),
        ("dispatch", &[1], 1, 1),
        ("dispatch", &[2], 6, 1),
        ("memory", &[1], 1, 1),
        ("range_check", &[2], 1, 1),
    ];
    holds(
        &rt,
        "the messages",
        are_recorded(&recorder, messages.as_slice()),
    );
    drop(recorder);
}

/// Whether the only record is a group on `rc` of two branches, each of count and weight 1: 3 under the
/// flag 1, and 5 under 0.
fn is_a_group_of_two(recorder: &Recorder) -> bool {
    let Some(group) = recorder.exclusive_interactions().first() else {
        return false;
    };
    let branches = group.branches.as_slice();
    recorded_counts(recorder) == [0, 0, 1, 0, 0]
        && group.bus_name.as_str() == "rc"
        && branches.len() == 2
        && is_branch(branches.get(0), 1, 1, &[3], 1)
        && is_branch(branches.get(1), 0, 1, &[5], 1)
}

#[test]
fn each_branch_of_an_exclusive_query_counts_once(rt: HostRuntime) {
    let alloc = rt.alloc();
    let calls: [(&str, Call<'_>); 1] = [("rc", Call::QueryOneOf(&[(1, 3), (0, 5)]))];
    let recorder = recorded(&rt, alloc, calls.as_slice());
    holds(&rt, "the group", is_a_group_of_two(&recorder));
    drop(recorder);
}
