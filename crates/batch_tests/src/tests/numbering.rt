//! The ids of plans.
use super::{Shape, holds, plan, shaped};
use batch::BatchPlan;
use field::F7;
use field_monty::BabyBear;
use lookup::{Lookup, Lookups};
use std::alloc::Global;
use std::process::Abort;

/// Fails unless the plan of these sets has these ids, and so many.
fn expect_ids(
    rt: &impl Abort,
    alloc: Global,
    sets: &[&[Shape<'_>]],
    ids: &[&[usize]],
    count: usize,
) {
    let heights: &[usize] = &[1, 1, 1];
    let own = heights.get(..sets.len()).unwrap_or(&[]);
    let made = plan::<F7>(rt, alloc, sets, 0, own).expect(rt, "a plan");
    for (own, wanted) in made.ids().iter().zip(ids) {
        holds(rt, "the ids", own.as_slice() == *wanted);
    }
    let right = made.ids().len() == ids.len() && made.num_ids() == count;
    holds(rt, "their number", right);
}

/// The ids and their number, by hand: a local lookup takes the next id, and a name keeps its first.
#[test]
fn ids_in_the_order_in_which_buses_are_seen(rt: HostRuntime) {
    let alloc = rt.alloc();
    let one: &[usize] = &[1];
    let sets: &[&[Shape<'_>]] = &[
        &[(None, one), (Some("a"), one)],
        &[(None, one), (Some("b"), one), (Some("a"), one)],
    ];
    expect_ids(&rt, alloc, sets, &[&[0, 1], &[2, 3, 1]], 4);
    // an AIR without lookups between two others
    let sets: &[&[Shape<'_>]] = &[&[(Some("a"), one)], &[], &[(Some("a"), one)]];
    expect_ids(&rt, alloc, sets, &[&[0], &[], &[0]], 1);
    expect_ids(&rt, alloc, &[&[], &[]], &[&[], &[]], 0);
}

/// Names are told apart by their bytes.
#[test]
fn names_that_are_alike(rt: HostRuntime) {
    let alloc = rt.alloc();
    let one: &[usize] = &[1];
    // names that differ in one byte, and the empty name
    let names: &[Shape<'_>] = &[
        (Some("ab"), one),
        (Some("ac"), one),
        (Some(""), one),
        (Some("ab"), one),
    ];
    expect_ids(&rt, alloc, &[names], &[&[0, 1, 2, 0]], 3);
    // the same letters in another order, and a name that another begins with
    let sets: &[&[Shape<'_>]] = &[
        &[(Some("abc"), one), (Some("cab"), one)],
        &[(Some("ab"), one), (Some("abc"), one)],
    ];
    expect_ids(&rt, alloc, sets, &[&[0, 1], &[2, 0]], 3);
    // the empty name is not that of a local lookup
    let names: &[Shape<'_>] = &[(Some(""), one), (None, one), (Some(""), one)];
    expect_ids(&rt, alloc, &[names], &[&[0, 1, 0]], 2);
}

/// Fails unless this is the greatest width of a tuple of the plan of these sets.
fn expect_width(rt: &impl Abort, alloc: Global, sets: &[&[Shape<'_>]], width: usize) {
    let heights: &[usize] = &[1, 1];
    let own = heights.get(..sets.len()).unwrap_or(&[]);
    let made = plan::<F7>(rt, alloc, sets, 0, own).expect(rt, "a plan");
    holds(rt, "the width", made.max_message_width() == width);
}

/// The greatest width of a tuple, 1 if no tuple is wider.
#[test]
fn the_width_of_the_widest_tuple(rt: HostRuntime) {
    let alloc = rt.alloc();
    let (none, empty): (&[usize], &[usize]) = (&[], &[0, 0]);
    let (ones, two, three): (&[usize], &[usize], &[usize]) = (&[1, 1], &[2], &[3]);
    expect_width(&rt, alloc, &[&[]], 1);
    expect_width(&rt, alloc, &[&[(Some("a"), none)]], 1);
    expect_width(&rt, alloc, &[&[(None, empty)]], 1);
    let sets: &[&[Shape<'_>]] = &[
        &[(Some("a"), two), (None, ones)],
        &[(Some("b"), three), (Some("a"), two)],
    ];
    expect_width(&rt, alloc, sets, 3);
}

/// The number after this one in a sequence that looks like chance.
pub(super) fn next(number: u32) -> u32 {
    number.wrapping_mul(1664525).wrapping_add(1013904223)
}

/// What a number draws by its upper half: no name, or one of five.
pub(super) fn name_of(number: u32) -> Option<&'static str> {
    match (number >> 16) % 6 {
        0 => None,
        1 => Some("a"),
        2 => Some("b"),
        3 => Some("ab"),
        4 => Some("ba"),
        _ => Some(""),
    }
}

/// The ids of these names by a plain search: that of the first lookup with the name, or the next one.
fn plain_ids(rt: &impl Abort, alloc: Global, names: &[Option<&str>]) -> Vec<usize> {
    let mut ids: Vec<usize> = Vec::new(alloc);
    let mut next = 0usize;
    for name in names {
        let mut known = None;
        for (id, other) in ids.iter().zip(names) {
            if name.is_some() && name == other {
                known = Some(*id);
            }
        }
        ids.push(known.unwrap_or(next)).expect(rt, "memory");
        if known.is_none() {
            next = next.saturating_add(1);
        }
    }
    ids
}

/// Whether a plan's ids, AIR after AIR, are these.
fn are_ids(plan: &BatchPlan<BabyBear>, ids: &[usize]) -> bool {
    let mut wanted = ids.iter();
    for own in plan.ids() {
        for id in own {
            if wanted.next() != Some(id) {
                return false;
            }
        }
    }
    wanted.next().is_none()
}

/// A thousand plans of three AIRs with two lookups each, drawn at random.
#[test]
fn plans_drawn_at_random(rt: HostRuntime) {
    let alloc = rt.alloc();
    let one: &[usize] = &[1];
    let mut drawn = 12345u32;
    for _ in 0..1000 {
        let a = next(drawn);
        let (b, c) = (next(a), next(next(a)));
        let (d, e) = (next(c), next(next(c)));
        drawn = next(e);
        let first: &[Shape<'_>] = &[(name_of(a), one), (name_of(b), one)];
        let second: &[Shape<'_>] = &[(name_of(c), one), (name_of(d), one)];
        let third: &[Shape<'_>] = &[(name_of(e), one), (name_of(drawn), one)];
        let made = plan::<BabyBear>(&rt, alloc, &[first, second, third], 0, &[1, 1, 1]).expect(
            &rt, "a plan",
        );
        let names = [a, b, c, d, e, drawn].map(name_of);
        let ids = plain_ids(&rt, alloc, names.as_slice());
        holds(&rt, "the ids", are_ids(&made, ids.as_slice()));
    }
}

/// The number of the bus of a lookup: 0 to 299, and back again.
fn there_and_back(column: usize) -> usize {
    if column < 300 {
        column
    } else {
        599usize.saturating_sub(column)
    }
}

/// The name of a bus.
fn name_of_bus(rt: &impl Abort, alloc: Global, bus: usize) -> String {
    format!(in alloc; "bus {bus}").expect(rt, "memory")
}

/// Two lookups on each of 300 buses.
fn two_of_each(rt: &impl Abort, alloc: Global) -> Lookups<BabyBear> {
    let mut records: Vec<Lookup<BabyBear>> = Vec::new(alloc);
    for column in 0..600usize {
        let name = name_of_bus(rt, alloc, there_and_back(column));
        let record = shaped(rt, alloc, (Some(name.as_str()), &[1]), 0, column);
        records.push(record).expect(rt, "memory");
    }
    Lookups::from_records(alloc, records).expect(rt, "well formed")
}

/// Whether each id is the number of its bus.
fn are_as_named(ids: &[usize]) -> bool {
    for (column, id) in ids.iter().enumerate() {
        if *id != there_and_back(column) {
            return false;
        }
    }
    true
}

/// One AIR with them.
#[test]
fn three_hundred_buses(rt: HostRuntime) {
    let alloc = rt.alloc();
    let airs = Vec::from_array(alloc, [two_of_each(&rt, alloc)]).expect(&rt, "memory");
    let heights = Vec::from_array(alloc, [1]).expect(&rt, "memory");
    let made = BatchPlan::new(alloc, airs, heights).expect(&rt, "a plan");
    for ids in made.ids() {
        let as_named = are_as_named(ids.as_slice());
        holds(&rt, "their ids", as_named && ids.len() == 600);
    }
    holds(&rt, "one AIR", made.ids().len() == 1);
    holds(&rt, "their number", made.num_ids() == 300);
}
