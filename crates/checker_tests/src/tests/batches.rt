//! Batches of several AIRs: two on one bus, with a group, of different heights, without lookups, and none;
//! and one AIR with all kinds of traces.
use super::counts::{count, counts};
use super::{
    cell, checked, expect_made, generate, group, holds, instance, list, lookup, rechecked, table,
    terminal, trace,
};
use air::{BaseEntry, BaseLeaf, Expression, SymbolicExpression, SymbolicVariable};
use checker::BatchInstance;
use field::{F7, PrimeCharacteristicRing};
use lookup::{Challenges, Kind, Lookup, LookupError};
use matrix::RowMajorMatrix;
use std::alloc::Global;
use std::process::Abort;

/// The lookup of an AIR that queries cell 0 once, on bus `keys`.
fn asks(rt: &impl Abort, alloc: Global) -> [Lookup<F7>; 1] {
    [lookup(rt, alloc, Some("keys"), [(0, None)])]
}

/// The lookup of an AIR that provides cell 0 as often as cell 1 says, on the same bus.
fn provides(rt: &impl Abort, alloc: Global) -> [Lookup<F7>; 1] {
    [lookup(rt, alloc, Some("keys"), [(0, Some(1))])]
}

/// The answer to auxiliary cells and terminals of two AIRs.
fn answer(
    rt: &impl Abort,
    alloc: Global,
    instances: &[BatchInstance<'_, F7>],
    challenges: &Challenges<F7>,
    first: (&[u32], u32),
    second: (&[u32], u32),
) -> Result<(), LookupError> {
    let aux = [trace(rt, alloc, first.0, 2), trace(rt, alloc, second.0, 2)];
    let terminals = [terminal(first.1), terminal(second.1)];
    let (aux, terminals) = (aux.as_slice(), terminals.as_slice());
    checked(rt, alloc, instances, challenges, aux, terminals)
}

#[test]
fn two_airs_on_one_bus(rt: HostRuntime) {
    let alloc = rt.alloc();
    let keys = trace(&rt, alloc, &[3, 3], 1);
    let entries = trace(&rt, alloc, &[3, 2, 4, 0], 2);
    let (asks, provides) = (asks(&rt, alloc), provides(&rt, alloc));
    let instances = [
        instance(asks.as_slice(), &keys, &[0]),
        instance(provides.as_slice(), &entries, &[0]),
    ];
    let instances = instances.as_slice();
    let challenges = table(&rt, alloc, 5, 2, 1);
    let keys: (&[u32], u32) = (&[0, 2, 2, 2], 4);
    let results: [(&[u32], u32); 2] = [keys, (&[0, 3, 3, 0], 3)];
    expect_made(
        &rt,
        alloc,
        instances,
        &challenges,
        results.as_slice(),
        Ok(()),
    );
    let changed = answer(&rt, alloc, instances, &challenges, keys, (&[0, 4, 3, 0], 3));
    let failed = LookupError::ConstraintFailed { air: 1, row: 0 };
    holds(&rt, "the first row of AIR 1", changed == Err(failed));
}

/// A group selects 3, then 5, then nothing; they are provided once each. At the prefix 0 they add 2, 4
/// and 0, and 5 and 3.
#[test]
fn a_group_and_its_provider(rt: HostRuntime) {
    let alloc = rt.alloc();
    let rows = trace(&rt, alloc, &[1, 3, 0, 5, 0, 3, 1, 5, 0, 3, 0, 5], 4);
    let entries = trace(&rt, alloc, &[3, 1, 5, 1], 2);
    let selects = [group(&rt, alloc, [(0, 1), (2, 3)], F7::ONE)];
    let provides = provides(&rt, alloc);
    let instances = [
        instance(selects.as_slice(), &rows, &[0]),
        instance(provides.as_slice(), &entries, &[0]),
    ];
    let instances = instances.as_slice();
    let challenges = table(&rt, alloc, 5, 2, 1);
    let entries: (&[u32], u32) = (&[0, 5, 5, 3], 1);
    let results: [(&[u32], u32); 2] = [(&[0, 2, 2, 4, 6, 0], 6), entries];
    expect_made(
        &rt,
        alloc,
        instances,
        &challenges,
        results.as_slice(),
        Ok(()),
    );
    let idle: (&[u32], u32) = (&[0, 2, 2, 4, 6, 1], 0);
    let changed = answer(&rt, alloc, instances, &challenges, idle, entries);
    let failed = LookupError::ConstraintFailed { air: 0, row: 2 };
    holds(&rt, "a fraction on an idle row", changed == Err(failed));
}

#[test]
fn the_first_air_with_a_fault(rt: HostRuntime) {
    let alloc = rt.alloc();
    let keys = trace(&rt, alloc, &[4], 1);
    let entries = trace(&rt, alloc, &[3, 1], 2);
    let (asks, provides) = (asks(&rt, alloc), provides(&rt, alloc));
    let instances = [
        instance(asks.as_slice(), &keys, &[0]),
        instance(provides.as_slice(), &entries, &[0]),
    ];
    let challenges = table(&rt, alloc, 1, 2, 1);
    let refused = match generate(&rt, alloc, instances.as_slice(), &challenges) {
        Ok(_) => false,
        Err(fault) => {
            fault.air == Some(1)
                && fault.error == LookupError::VanishingDenominator { row: 0, lookup: 0 }
        }
    };
    holds(&rt, "air 1, row 0", refused);
}

#[test]
fn an_air_without_lookups_between_two_others(rt: HostRuntime) {
    let alloc = rt.alloc();
    let keys = trace(&rt, alloc, &[3, 3, 4], 1);
    let idle = trace(&rt, alloc, &[1, 2], 1);
    let entries = trace(&rt, alloc, &[3, 2, 4, 1], 2);
    let (asks, provides) = (asks(&rt, alloc), provides(&rt, alloc));
    let instances = [
        instance(asks.as_slice(), &keys, &[0]),
        instance(&[], &idle, &[]),
        instance(provides.as_slice(), &entries, &[0]),
    ];
    let instances = instances.as_slice();
    let challenges = table(&rt, alloc, 5, 2, 1);
    let mut made = generate(&rt, alloc, instances, &challenges).expect(&rt, "no fault");
    let accepted = rechecked(&rt, alloc, instances, &challenges, &made);
    holds(&rt, "accepted", accepted.is_ok());
    if let Some(second) = made.terminals.get_mut(1) {
        *second = terminal(0);
    }
    let present = LookupError::TerminalPresenceMismatch {
        air: 1,
        expected_present: false,
        got_present: true,
    };
    let refused = rechecked(&rt, alloc, instances, &challenges, &made);
    holds(&rt, "a terminal without lookups", refused == Err(present));
}

#[test]
fn no_air(rt: HostRuntime) {
    let alloc = rt.alloc();
    let challenges = table(&rt, alloc, 5, 2, 0);
    let made = generate::<F7, F7>(&rt, alloc, &[], &challenges).expect(&rt, "no fault");
    let accepted = rechecked::<F7, F7>(&rt, alloc, &[], &challenges, &made);
    holds(&rt, "accepted", accepted.is_ok());
}

/// A variable of this kind.
fn variable(entry: BaseEntry, index: usize) -> SymbolicExpression<F7> {
    SymbolicExpression::Leaf(BaseLeaf::Variable(SymbolicVariable::new(entry, index)))
}

/// The preprocessed cell, sent once, and the two public values, taken away as often as the two main cells
/// say.
fn of_all_traces(rt: &impl Abort, alloc: Global) -> Lookup<F7> {
    let fixed = variable(BaseEntry::Preprocessed { offset: 0 }, 0);
    let (first, second) = (
        variable(BaseEntry::Public, 0),
        variable(BaseEntry::Public, 1),
    );
    let mut elements = Vec::new(alloc);
    for element in list(rt, alloc, [fixed, first, second]) {
        let tuple = list(rt, alloc, [element]);
        elements.push(tuple).expect(rt, "memory");
    }
    let once = SymbolicExpression::constant(F7::ONE);
    let first = cell::<F7>(0).neg(alloc).expect(rt, "memory");
    let second = cell::<F7>(1).neg(alloc).expect(rt, "memory");
    Lookup {
        kind: Kind::Local,
        elements,
        multiplicities: list(rt, alloc, [once, first, second]),
        count_weight: 1,
        column: 0,
        flags: None,
    }
}

/// The preprocessed cells are 3 and 4, as the public values are. The first row takes the second of these
/// away, the second row the first. At the prefix 0 a 3 adds 2 and a 4 adds 5, so the rows add
/// 2 - 5 = 4 and 5 - 2 = 3.
#[test]
fn an_air_with_all_kinds_of_traces(rt: HostRuntime) {
    let alloc = rt.alloc();
    let main: RowMajorMatrix<F7> = trace(&rt, alloc, &[0, 1, 1, 0], 2);
    let preprocessed: RowMajorMatrix<F7> = trace(&rt, alloc, &[3, 4], 1);
    let public_values = [F7::new(3), F7::new(4)];
    let lookups = [of_all_traces(&rt, alloc)];
    let instances = [BatchInstance {
        lookups: lookups.as_slice(),
        main: &main,
        preprocessed: Some(&preprocessed),
        public_values: public_values.as_slice(),
        ids: &[0],
    }];
    let instances = instances.as_slice();
    let challenges = table(&rt, alloc, 5, 2, 1);
    let results: [(&[u32], u32); 1] = [(&[0, 4, 4, 3], 0)];
    expect_made(
        &rt,
        alloc,
        instances,
        &challenges,
        results.as_slice(),
        Ok(()),
    );
    let counted = counts::<F7, F7>(&rt, alloc, instances, 1).ok();
    holds(&rt, "the counts", counted == Some(count(2, 0, 0, None)));
}
