//! Sets of lookups: which records make one.
use super::{cell, holds, list, single};
use air::AirLayout;
use field::F7;
use lookup::{Lookup, LookupError, Lookups};
use std::alloc::Global;
use std::process::Abort;

/// Whether records are refused, and for this one.
fn is_refused_at(alloc: Global, records: Vec<Lookup<F7>>, lookup: usize) -> bool {
    Lookups::from_records(alloc, records).err() == Some(LookupError::BadRecord { lookup })
}

/// A record without multiplicities for its tuple.
fn without_multiplicities(rt: &impl Abort, alloc: Global) -> Lookup<F7> {
    let mut record = single(rt, alloc, 1, 0);
    record.multiplicities = Vec::new(alloc);
    record
}

/// A record of two flags for its one tuple.
fn with_two_flags(rt: &impl Abort, alloc: Global) -> Lookup<F7> {
    let mut record = single(rt, alloc, 1, 0);
    record.flags = Some(list(rt, alloc, [cell(0), cell(0)]));
    record
}

#[test]
fn malformed_records(rt: HostRuntime) {
    let alloc = rt.alloc();
    let misplaced = list(
        &rt,
        alloc,
        [single(&rt, alloc, 1, 0), single(&rt, alloc, 1, 5)],
    );
    holds(
        &rt,
        "column 5 in place 1",
        is_refused_at(alloc, misplaced, 1),
    );
    let uncounted = list(&rt, alloc, [without_multiplicities(&rt, alloc)]);
    holds(&rt, "no multiplicities", is_refused_at(alloc, uncounted, 0));
    let flagged = list(&rt, alloc, [with_two_flags(&rt, alloc)]);
    holds(&rt, "two flags", is_refused_at(alloc, flagged, 0));
}

/// A set of lookups of these weights, each of a tuple of two cells.
fn with_weights(rt: &impl Abort, alloc: Global, weights: &[u64]) -> Lookups<F7> {
    let mut records = Vec::new(alloc);
    for (column, weight) in weights.iter().enumerate() {
        let mut record = single(rt, alloc, 2, column);
        record.count_weight = *weight;
        records.push(record).expect(rt, "memory");
    }
    Lookups::from_records(alloc, records).expect(rt, "records")
}

#[test]
fn well_formed_records(rt: HostRuntime) {
    let lookups = with_weights(&rt, rt.alloc(), &[1, 0, 1, 1]);
    holds(&rt, "the length", lookups.as_slice().len() == 4);
    holds(&rt, "the weight", lookups.total_count_weight() == 3);
    let mut layout = AirLayout::default();
    layout.main_width = 2;
    holds(&rt, "two columns", lookups.fits(&layout));
    layout.main_width = 1;
    holds(&rt, "one column", !lookups.fits(&layout));
}
