//! Which ids are lawful.
use super::{cell, have_ids, holds, instance, list, lookup, trace};
use checker::{BatchInstance, ids_are_lawful, instance_fits, instances_fit};
use field::F7;
use lookup::Lookup;
use std::alloc::Global;
use std::process::Abort;

/// Whether the ids of the lookups of one AIR are lawful for `count` prefixes and tuples of at most
/// `width` elements.
fn are_lawful(
    rt: &impl Abort,
    alloc: Global,
    lookups: &[Lookup<F7>],
    ids: &[usize],
    width: usize,
    count: usize,
) -> bool {
    let main = trace(rt, alloc, &[1], 1);
    let instances = [instance(lookups, &main, ids)];
    assert!(rt; have_ids(instances.as_slice()));
    ids_are_lawful(alloc, instances.as_slice(), width, count).expect(rt, "memory")
}

#[test]
fn no_lookups(rt: HostRuntime) {
    let alloc = rt.alloc();
    let lawful = ids_are_lawful::<F7>(alloc, &[], 1, 0).expect(&rt, "memory");
    holds(&rt, "no instance", lawful);
}

/// An AIR of one lookup over one row: with an id it fits, and without one, or without the row, it does not.
#[test]
fn an_id_and_a_row_make_an_instance_fit(rt: HostRuntime) {
    let alloc = rt.alloc();
    let lookups = list(&rt, alloc, [lookup(&rt, alloc, Some("a"), [(0, None)])]);
    let row = trace::<F7>(&rt, alloc, &[3], 1);
    let no_row = trace::<F7>(&rt, alloc, &[], 1);
    let whole = instance(lookups.as_slice(), &row, &[0]);
    let without_id = instance(lookups.as_slice(), &row, &[]);
    let without_row = instance(lookups.as_slice(), &no_row, &[0]);
    holds(&rt, "an id and a row", instance_fits(&whole));
    holds(&rt, "no id", !instance_fits(&without_id));
    holds(&rt, "no row", !instance_fits(&without_row));
    holds(
        &rt,
        "one of three",
        !instances_fit(&[whole, without_id, without_row]),
    );
}

#[test]
fn one_id_for_each_bus(rt: HostRuntime) {
    let alloc = rt.alloc();
    let lookups = list(
        &rt,
        alloc,
        [
            lookup(&rt, alloc, Some("a"), [(0, None)]),
            lookup(&rt, alloc, None, [(0, None)]),
            lookup(&rt, alloc, Some("b"), [(0, None)]),
            lookup(&rt, alloc, Some("a"), [(0, None)]),
        ],
    );
    let cases: [([usize; 4], usize, usize, bool); 8] = [
        ([0, 1, 2, 0], 1, 3, true),
        ([0, 1, 2, 0], 1, 7, true),
        ([0, 1, 2, 0], 1, 8, false),
        ([0, 1, 2, 0], 1, 2, false),
        ([0, 1, 2, 0], 0, 3, false),
        ([0, 1, 0, 0], 1, 3, false),
        ([0, 1, 2, 3], 1, 4, false),
        ([0, 0, 2, 0], 1, 3, false),
    ];
    for (ids, width, count, lawful) in cases.as_slice() {
        let found = are_lawful(
            &rt,
            alloc,
            lookups.as_slice(),
            ids.as_slice(),
            *width,
            *count,
        );
        holds(&rt, "ids of four lookups", found == *lawful);
    }
}

#[test]
fn local_lookups_and_widths(rt: HostRuntime) {
    let alloc = rt.alloc();
    let locals = list(
        &rt,
        alloc,
        [
            lookup(&rt, alloc, None, [(0, None)]),
            lookup(&rt, alloc, None, [(0, None)]),
        ],
    );
    let shared = are_lawful(&rt, alloc, locals.as_slice(), &[0, 0], 1, 2);
    holds(&rt, "two locals under one id", !shared);
    let apart = are_lawful(&rt, alloc, locals.as_slice(), &[0, 1], 1, 2);
    holds(&rt, "two locals under two ids", apart);
    let mut wide = lookup(&rt, alloc, Some("a"), [(0, None)]);
    if let Some(tuple) = wide.elements.get_mut(0) {
        tuple.push(cell(1)).expect(&rt, "memory");
    }
    let wide = list(&rt, alloc, [wide]);
    let narrow_table = are_lawful(&rt, alloc, wide.as_slice(), &[0], 1, 1);
    holds(&rt, "a width of 2 in a table for 1", !narrow_table);
    let wide_table = are_lawful(&rt, alloc, wide.as_slice(), &[0], 2, 1);
    holds(&rt, "a width of 2 in a table for 2", wide_table);
}
