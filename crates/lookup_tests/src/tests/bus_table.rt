//! The table of groups, and the first mismatch as data. The expected texts are reckoned by hand.
use super::debug::{has_fitting_lookups, has_one_height, instance, on_bus, with_count};
use super::{alone, holds, trace};
use field::{F2, F7, Field, PrimeCharacteristicRing};
use field_goldilocks::Goldilocks;
use field_monty::{BabyBear, KoalaBear};
use lookup::Lookup;
use lookup::debug_util::{
    BusGroup, GroupName, LookupDebugInstance, Mismatch, Place, SignedField, UnbalancedTuple,
    bus_table, mismatch_of,
};
use matrix::RowMajorMatrix;
use std::alloc::{AllocError, Global};
use std::process::Abort;

/// `local INSTANCE LOOKUP`, or the name of the bus.
fn push_name(alloc: Global, line: &mut String, name: &GroupName) -> Result<(), AllocError> {
    match name {
        GroupName::Local { instance, lookup } => {
            line.push_str(format!(in alloc; "local {instance} {lookup}")?.as_str())
        }
        GroupName::Bus(name) => line.push_str(name.as_str()),
    }
}

/// ` INSTANCE.LOOKUP.ROW*COUNT` for each place.
fn push_places<F: Field>(
    alloc: Global,
    line: &mut String,
    places: &[Place<F>],
) -> Result<(), AllocError> {
    for place in places {
        let instance = place.location.instance;
        let lookup = place.location.lookup;
        let row = place.location.row;
        let count = place.count.text(alloc)?;
        line.push_str(format!(in alloc; " {instance}.{lookup}.{row}*{count}")?.as_str())?;
    }
    Ok(())
}

/// ` (ELEMENT ELEMENT )=NET PLACES:` for a tuple, with its places.
fn push_tuple<F: Field>(
    alloc: Global,
    line: &mut String,
    unbalanced: &UnbalancedTuple<F>,
) -> Result<(), AllocError> {
    line.push_str(" (")?;
    for element in &unbalanced.tuple {
        line.push_str(element.text(alloc)?.as_str())?;
        line.push_str(" ")?;
    }
    let net = unbalanced.net.text(alloc)?;
    let count = unbalanced.place_count;
    line.push_str(format!(in alloc; ")={net} {count}:")?.as_str())?;
    push_places(alloc, line, unbalanced.places.as_slice())
}

/// `NAME SENT RECEIVED DISTINCT UNBALANCED` for a group, with its tuples.
fn push_group<F: Field>(
    alloc: Global,
    line: &mut String,
    group: &BusGroup<F>,
) -> Result<(), AllocError> {
    push_name(alloc, line, &group.name)?;
    let sent = group.sent;
    let received = group.received;
    let distinct = group.distinct;
    let unbalanced = group.unbalanced;
    line.push_str(format!(in alloc; " {sent} {received} {distinct} {unbalanced}")?.as_str())?;
    for tuple in &group.first {
        push_tuple(alloc, line, tuple)?;
    }
    line.push_str("; ")
}

/// All groups in one line.
fn table_line<F: Field>(alloc: Global, table: &[BusGroup<F>]) -> Result<String, AllocError> {
    let mut line = String::new(alloc);
    for group in table {
        push_group(alloc, &mut line, group)?;
    }
    Ok(line)
}

/// The mismatch in one line, and `none` without one.
fn mismatch_line<F: Field>(
    alloc: Global,
    found: &Option<Mismatch<F>>,
) -> Result<String, AllocError> {
    let mut line = String::new(alloc);
    match found {
        Some(mismatch) => {
            push_name(alloc, &mut line, &mismatch.group)?;
            push_tuple(alloc, &mut line, &mismatch.unbalanced)?;
        }
        None => line.push_str("none")?,
    }
    Ok(line)
}

/// The table and the mismatch of AIRs have to be these.
fn expect<F: SignedField>(
    rt: &impl Abort,
    alloc: Global,
    instances: &[LookupDebugInstance<'_, F>],
    limit: usize,
    expected: (&str, &str),
) {
    let fit = instances
        .iter()
        .all(|instance| has_fitting_lookups(instance));
    assert!(rt; fit);
    let have_one_height = instances.iter().all(|instance| has_one_height(instance));
    assert!(rt; have_one_height);
    let table = bus_table(alloc, instances, limit).expect(rt, "memory");
    let found = mismatch_of(alloc, instances, limit).expect(rt, "memory");
    let line = table_line(alloc, table.as_slice()).expect(rt, "memory");
    assert!(rt;
        line.as_str() == expected.0,
        "{line} in place of {}",
        expected.0
    );
    let line = mismatch_line(alloc, &found).expect(rt, "memory");
    assert!(rt;
        line.as_str() == expected.1,
        "{line} in place of {}",
        expected.1
    );
}

/// The AIR 0 sends cell 0 on the bus `a` as often as cell 1 says, and in a local lookup as often as cell
/// 2 says. The AIR 1 sends cell 0 on `b`, and then on `a`, as often as cell 1 says. Counts from 4 to 6
/// are negative.
fn expect_of_two_airs(rt: &impl Abort, alloc: Global, limit: usize, expected: (&str, &str)) {
    let first: RowMajorMatrix<F7> = trace(rt, alloc, &[3, 1, 2, 3, 1, 0, 4, 0, 1], 3);
    let second: RowMajorMatrix<F7> = trace(rt, alloc, &[3, 5, 4, 6], 2);
    let lookups = [on_bus(rt, alloc, "a", 1, 0), with_count(rt, alloc, 2, 1)];
    let others = [on_bus(rt, alloc, "b", 1, 0), on_bus(rt, alloc, "a", 1, 1)];
    let instances = [
        instance(&first, lookups.as_slice()),
        instance(&second, others.as_slice()),
    ];
    expect(rt, alloc, instances.as_slice(), limit, expected);
}

#[test]
fn local_lookups_and_buses(rt: HostRuntime) {
    let alloc = rt.alloc();
    let all = "local 0 1 2 0 2 2 (3 )=2 1: 0.1.0*2 (4 )=1 1: 0.1.2*1; \
        a 2 2 2 1 (4 )=6 1: 1.1.1*6; \
        b 0 2 2 2 (3 )=5 1: 1.0.0*5 (4 )=6 1: 1.0.1*6; ";
    expect_of_two_airs(&rt, alloc, 9, (all, "local 0 1 (3 )=2 1: 0.1.0*2"));
    let first = "local 0 1 2 0 2 2 (3 )=2 1: 0.1.0*2; \
        a 2 2 2 1 (4 )=6 1: 1.1.1*6; \
        b 0 2 2 2 (3 )=5 1: 1.0.0*5; ";
    expect_of_two_airs(&rt, alloc, 1, (first, "local 0 1 (3 )=2 1: 0.1.0*2"));
    let none = "local 0 1 2 0 2 2; a 2 2 2 1; b 0 2 2 2; ";
    expect_of_two_airs(&rt, alloc, 0, (none, "local 0 1 (3 )=2 1:"));
}

/// One AIR with these lookups and rows of two cells.
fn expect_of_air<F: SignedField>(
    rt: &impl Abort,
    alloc: Global,
    lookups: &[Lookup<F>],
    numbers: &[u32],
    limit: usize,
    expected: (&str, &str),
) {
    let main: RowMajorMatrix<F> = trace(rt, alloc, numbers, 2);
    expect(rt, alloc, &[instance(&main, lookups)], limit, expected);
}

/// One AIR that sends cell 0 as often as cell 1 says.
fn expect_of_rows<F: SignedField>(
    rt: &impl Abort,
    alloc: Global,
    numbers: &[u32],
    limit: usize,
    expected: (&str, &str),
) {
    let lookups: Vec<Lookup<F>> = alone(rt, alloc, with_count(rt, alloc, 1, 0));
    expect_of_air(rt, alloc, lookups.as_slice(), numbers, limit, expected);
}

/// A tuple that is sent three times tells as many places as the limit allows. The one that is listed
/// first is the first that contributes, and the mismatch is the first by its text.
#[test]
fn places_up_to_the_limit(rt: HostRuntime) {
    let alloc = rt.alloc();
    let numbers = [9, 1, 10, 1, 9, 1, 9, 2, 5, 0];
    let expected = (
        "local 0 0 4 0 2 2 (9 )=4 3: 0.0.0*1 0.0.2*1 (10 )=1 1: 0.0.1*1; ",
        "local 0 0 (10 )=1 1: 0.0.1*1",
    );
    expect_of_rows::<BabyBear>(&rt, alloc, &numbers, 2, expected);
}

/// The count `P - 1` is received, as are all past half of the characteristic.
#[test]
fn signs_of_counts(rt: HostRuntime) {
    let alloc = rt.alloc();
    let numbers = [3, 2013265920, 3, 1006632961, 3, 1006632960];
    let expected = ("local 0 0 1 2 1 1; ", "local 0 0 (3 )=2013265920 3:");
    expect_of_rows::<BabyBear>(&rt, alloc, &numbers, 0, expected);
    let numbers = [3, 2130706432, 3, 1065353217, 3, 1065353216];
    let expected = ("local 0 0 1 2 1 1; ", "local 0 0 (3 )=2130706432 3:");
    expect_of_rows::<KoalaBear>(&rt, alloc, &numbers, 0, expected);
    let numbers = [1, 1, 0, 1, 1, 1];
    let expected = (
        "local 0 0 3 0 2 1 (0 )=1 1: 0.0.1*1; ",
        "local 0 0 (0 )=1 1: 0.0.1*1",
    );
    expect_of_rows::<F2>(&rt, alloc, &numbers, 3, expected);
    let numbers = [0, 1, 0, 2, 0, 3, 0, 4, 0, 5, 0, 6];
    expect_of_rows::<F7>(&rt, alloc, &numbers, 3, ("local 0 0 3 3 1 0; ", "none"));
}

/// The sign of an element, by itself.
#[test]
fn elements_are_negative(rt: HostRuntime) {
    holds(&rt, "half", !BabyBear::new(1006632960).is_negative());
    holds(
        &rt,
        "more than half",
        BabyBear::new(1006632961).is_negative(),
    );
    holds(&rt, "minus one", (F7::ZERO - F7::ONE).is_negative());
    holds(&rt, "one", !F2::ONE.is_negative());
    // half of 2^64 - 2^32 + 1 is 2^63 - 2^31, rounded down
    let half = Goldilocks::new(9_223_372_034_707_292_160);
    holds(&rt, "half of the greatest", !half.is_negative());
    holds(&rt, "one more", (half + Goldilocks::ONE).is_negative());
}

/// No groups, groups without rows, and rows that send nothing.
#[test]
fn nothing_is_sent(rt: HostRuntime) {
    let alloc = rt.alloc();
    let no_airs: [LookupDebugInstance<'_, F7>; 0] = [];
    expect(&rt, alloc, no_airs.as_slice(), 3, ("", "none"));
    expect_of_rows::<F7>(&rt, alloc, &[], 3, ("local 0 0 0 0 0 0; ", "none"));
    expect_of_rows::<F7>(
        &rt,
        alloc,
        &[3, 0, 4, 0],
        3,
        ("local 0 0 0 0 0 0; ", "none"),
    );
}
