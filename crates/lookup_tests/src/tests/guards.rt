//! One width for all tuples of a bus, and the bound on weights times heights, over all AIRs.
use super::{cell, holds, list, local, single, text};
use field::{F7, Field};
use field_monty::BabyBear;
use lookup::{
    Kind, Lookup, LookupError, Lookups, check_bus_widths, check_multiplicity_height_bound,
    height_law,
};
use std::alloc::Global;
use std::process::Abort;

/// A lookup of one tuple: the name of its bus, or nothing for a local one; its width; and whether it
/// has a flag.
type Shape<'a> = (&'a str, usize, bool);

/// The lookups of an AIR of these shapes.
fn air(rt: &impl Abort, alloc: Global, shapes: &[Shape<'_>]) -> Lookups<F7> {
    let mut records = Vec::new(alloc);
    for (bus, width, has_flag) in shapes {
        let mut lookup = single(rt, alloc, *width, records.len());
        if !bus.is_empty() {
            lookup.kind = Kind::Global(text(rt, alloc, bus));
        }
        if *has_flag {
            lookup.flags = Some(list(rt, alloc, [cell(0)]));
        }
        records.push(lookup).expect(rt, "memory");
    }
    Lookups::from_records(alloc, records).expect(rt, "records")
}

/// The greatest width of AIRs of these shapes, or the bus that is refused with its two widths.
fn widest(
    rt: &impl Abort,
    alloc: Global,
    shapes: &[&[Shape<'_>]],
) -> Result<usize, (String, usize, usize)> {
    let mut airs = Vec::new(alloc);
    for own in shapes {
        airs.push(air(rt, alloc, own)).expect(rt, "memory");
    }
    match check_bus_widths(alloc, airs.as_slice()) {
        Ok(width) => Ok(width),
        Err(
            LookupError::BusWidthMismatch {
                bus,
                expected,
                actual,
            },
        ) => Err((bus, expected, actual)),
        Err(_) => panic!(rt; "another refusal"),
    }
}

/// Fails unless this is the greatest width of AIRs of these shapes.
fn expect_width(rt: &impl Abort, alloc: Global, what: &str, shapes: &[&[Shape<'_>]], width: usize) {
    holds(rt, what, widest(rt, alloc, shapes) == Ok(width));
}

#[test]
fn widths_on_buses(rt: HostRuntime) {
    let alloc = rt.alloc();
    expect_width(&rt, alloc, "no AIR", &[], 0);
    let apart: &[&[Shape<'_>]] = &[&[("a", 1, false), ("", 5, false)], &[("b", 3, false)]];
    expect_width(&rt, alloc, "3, and a local one", apart, 3);
    let grouped: &[&[Shape<'_>]] = &[&[("a", 1, false)], &[("b", 2, true)]];
    expect_width(&rt, alloc, "a group", grouped, 2);
}

/// Fails unless AIRs of these shapes are refused for two widths on bus `a`.
fn expect_two_widths(
    rt: &impl Abort,
    alloc: Global,
    what: &str,
    shapes: &[&[Shape<'_>]],
    expected: usize,
    actual: usize,
) {
    let answer = Err((text(rt, alloc, "a"), expected, actual));
    holds(rt, what, widest(rt, alloc, shapes) == answer);
}

#[test]
fn two_widths_on_a_bus(rt: HostRuntime) {
    let alloc = rt.alloc();
    let both: &[&[Shape<'_>]] = &[&[
        ("a", 1, false),
        ("b", 1, false),
        ("b", 2, false),
        ("a", 2, false),
    ]];
    expect_two_widths(&rt, alloc, "bus a before bus b", both, 1, 2);
    let apart: &[&[Shape<'_>]] = &[&[("a", 2, false)], &[("b", 1, false)], &[("a", 1, false)]];
    expect_two_widths(&rt, alloc, "2 in AIR 0, 1 in AIR 2", apart, 2, 1);
    let grouped: &[&[Shape<'_>]] = &[&[("a", 1, false)], &[("a", 2, true)]];
    expect_two_widths(&rt, alloc, "a group of another width", grouped, 1, 2);
}

/// The refusal of AIRs with lookups of these weights over these heights, where there is one.
fn refusal<F: Field>(
    rt: &impl Abort,
    alloc: Global,
    weights: &[&[u64]],
    heights: &[usize],
) -> Option<LookupError> {
    let mut airs = Vec::new(alloc);
    for own in weights {
        let mut records = Vec::new(alloc);
        for weight in *own {
            let column = records.len();
            let mut lookup: Lookup<F> = local(Vec::new(alloc), Vec::new(alloc), column);
            lookup.count_weight = *weight;
            records.push(lookup).expect(rt, "memory");
        }
        let lookups = Lookups::from_records(alloc, records).expect(rt, "records");
        airs.push(lookups).expect(rt, "memory");
    }
    assert!(rt; airs.len() == heights.len());
    height_law::<F>();
    check_multiplicity_height_bound(airs.as_slice(), heights).err()
}

/// The refusal of this sum, in a field of so many bits.
fn reached(weighted_height_sum: u128, field_bits: usize) -> Option<LookupError> {
    Some(LookupError::MultiplicityHeightBoundExceeded {
        weighted_height_sum,
        field_bits,
    })
}

/// Fails unless AIRs with lookups of these weights over these heights reach this sum over `BabyBear`, or
/// are accepted where there is none.
fn expect_sum(
    rt: &impl Abort,
    alloc: Global,
    weights: &[&[u64]],
    heights: &[usize],
    sum: Option<u128>,
) {
    let answer = refusal::<BabyBear>(rt, alloc, weights, heights);
    let wanted = match sum {
        Some(sum) => reached(sum, 31),
        None => None,
    };
    holds(rt, "the sum", answer == wanted);
}

#[test]
fn weights_times_heights(rt: HostRuntime) {
    let alloc = rt.alloc();
    let half: usize = 1073741824;
    // one less than the characteristic, small heights, and weights of zero
    expect_sum(&rt, alloc, &[&[1], &[1]], &[2013265919, 1], None);
    expect_sum(&rt, alloc, &[&[1], &[1]], &[1048576, 1048576], None);
    expect_sum(&rt, alloc, &[&[0], &[0]], &[half, half], None);
    // the characteristic, and more
    let sum = Some(2013265921);
    expect_sum(&rt, alloc, &[&[1], &[1]], &[2013265920, 1], sum);
    let sum = Some(2147483648);
    expect_sum(&rt, alloc, &[&[1], &[1]], &[half, half], sum);
    // a product of 128 bits, and the greatest sum
    let (all, high) = (18446744073709551615u64, 18446744073709551615usize);
    let sum = Some(340282366920938463426481119284349108225);
    expect_sum(&rt, alloc, &[&[all]], &[high], sum);
    let sum = Some(340282366920938463463374607431768211455);
    expect_sum(&rt, alloc, &[&[all, all]], &[high], sum);
    let seven = refusal::<F7>(&rt, alloc, &[&[1]], &[7]);
    holds(&rt, "7 over F7", seven == reached(7, 3));
}
