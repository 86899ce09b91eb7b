//! Packing: lookups on one bus in as few columns as a degree allows.
use super::{cell, holds, is_on, list, local, one, text};
use air::{Expression, SymbolicExpression};
use field::F7;
use lookup::{
    Kind, LogUpGadget, Lookup, LookupError, LookupProtocol, Lookups, few_collisions,
    has_equal_lengths, messages_keep_terminals,
};
use std::alloc::Global;
use std::cell::Cell;
use std::process::Abort;

/// A lookup with one tuple, before packing.
#[derive(Clone, Copy)]
struct Member<'a> {
    /// The name of its bus, or nothing for a local lookup.
    bus: &'a str,
    /// The length of its tuple.
    width: usize,
    /// The degree of each element.
    degree: usize,
    weight: u64,
    is_group: bool,
}

/// A lookup of one cell on this bus, with weight 1.
fn on(bus: &str) -> Member<'_> {
    Member {
        bus,
        width: 1,
        degree: 1,
        weight: 1,
        is_group: false,
    }
}

/// The same with this weight.
fn weighing(bus: &str, weight: u64) -> Member<'_> {
    let mut member = on(bus);
    member.weight = weight;
    member
}

/// The same of so many cells.
fn wide(bus: &str, width: usize) -> Member<'_> {
    let mut member = on(bus);
    member.width = width;
    member
}

/// A group of one branch, of so many cells.
fn group(bus: &str, width: usize) -> Member<'_> {
    let mut member = wide(bus, width);
    member.is_group = true;
    member
}

/// A lookup of a cell to this power.
fn power(bus: &str, degree: usize) -> Member<'_> {
    let mut member = on(bus);
    member.degree = degree;
    member
}

/// A cell to this power.
fn raised(rt: &impl Abort, alloc: Global, degree: usize) -> SymbolicExpression<F7> {
    let mut product = one();
    for _ in 0..degree {
        product = product.mul(alloc, cell(0)).expect(rt, "memory");
    }
    product
}

/// The lookup of a member.
fn lookup_of(rt: &impl Abort, alloc: Global, member: &Member<'_>, column: usize) -> Lookup<F7> {
    let mut tuple = Vec::new(alloc);
    for _ in 0..member.width {
        tuple
            .push(raised(rt, alloc, member.degree))
            .expect(rt, "memory");
    }
    let mut lookup = local(list(rt, alloc, [tuple]), list(rt, alloc, [one()]), column);
    if !member.bus.is_empty() {
        lookup.kind = Kind::Global(text(rt, alloc, member.bus));
    }
    if member.is_group {
        lookup.flags = Some(list(rt, alloc, [cell(2)]));
    }
    lookup.count_weight = member.weight;
    lookup
}

/// The set of these.
fn set(rt: &impl Abort, alloc: Global, members: &[Member<'_>]) -> Lookups<F7> {
    let mut records = Vec::new(alloc);
    for member in members {
        let lookup = lookup_of(rt, alloc, member, records.len());
        records.push(lookup).expect(rt, "memory");
    }
    Lookups::from_records(alloc, records).expect(rt, "records")
}

/// What the gadget packs of these within a degree.
fn pack(
    rt: &impl Abort,
    alloc: Global,
    members: &[Member<'_>],
    budget: usize,
) -> Result<Lookups<F7>, LookupError> {
    set(rt, alloc, members).pack_same_bus(alloc, &LogUpGadget::new(), budget)
}

/// Whether columns have these buses, numbers of tuples and weights, and are numbered in order.
fn are_columns(columns: &[Lookup<F7>], expected: &[(&str, usize, u64)]) -> bool {
    for (index, column) in columns.iter().enumerate() {
        let Some((bus, tuples, weight)) = expected.get(index) else {
            return false;
        };
        let is_column = is_on(column, bus)
            && column.column == index
            && column.elements.len() == *tuples
            && column.count_weight == *weight;
        if !is_column {
            return false;
        }
    }
    columns.len() == expected.len()
}

/// Whether columns are numbered from 0, and none has a constraint above the budget.
fn are_within(columns: &[Lookup<F7>], budget: usize) -> bool {
    for (index, column) in columns.iter().enumerate() {
        if !has_equal_lengths(column) {
            return false;
        }
        let is_low = match LogUpGadget::new().constraint_degree(column) {
            Ok(degree) => degree <= budget,
            Err(_) => false,
        };
        if !is_low || column.column != index {
            return false;
        }
    }
    true
}

#[test]
fn equal_lookups(rt: HostRuntime) {
    let alloc = rt.alloc();
    let all: [Member<'_>; 16] = [on("a"); 16];
    for number in 1..17usize {
        for budget in 2..9usize {
            let columns = pack(&rt, alloc, &all[..number], budget).expect(&rt, "packed");
            let mut tuples: usize = 0;
            for column in columns.as_slice() {
                tuples = tuples.saturating_add(column.elements.len());
            }
            let expected = number.div_ceil(budget - 1);
            let are_few = columns.as_slice().len() == expected && tuples == number;
            holds(&rt, "the columns", are_few);
            let within = are_within(columns.as_slice(), budget);
            holds(&rt, "the budget", within);
        }
    }
}

/// Fails unless the gadget packs these within a degree into these columns.
fn expect_columns(
    rt: &impl Abort,
    alloc: Global,
    what: &str,
    members: &[Member<'_>],
    budget: usize,
    expected: &[(&str, usize, u64)],
) {
    let columns = pack(rt, alloc, members, budget).expect(rt, what);
    holds(rt, what, are_columns(columns.as_slice(), expected));
}

/// Locals come first. A lookup above the degree stands alone.
#[test]
fn columns_within_a_degree(rt: HostRuntime) {
    let alloc = rt.alloc();
    let (a, cube) = (on("a"), power("a", 3));
    let one: (&str, usize, u64) = ("a", 1, 1);
    let two: (&str, usize, u64) = ("a", 2, 2);
    expect_columns(
        &rt,
        alloc,
        "a local one",
        &[on(""), a, a, a],
        3,
        &[("", 1, 1), two, one],
    );
    expect_columns(&rt, alloc, "two of two", &[a, a, a, a], 3, &[two, two]);
    let four = &[one, one, one, one];
    expect_columns(&rt, alloc, "four of one", &[a, a, a, a], 2, four);
    let cubes = &[two, one, one];
    expect_columns(&rt, alloc, "a cube", &[a, a, cube, a], 3, cubes);
    let five = &[one, one, one, one, one];
    expect_columns(&rt, alloc, "a budget of 0", &[a, a, a, a, a], 0, five);
}

/// Groups come first, and then the buses in the order of the first lookups that are joined, whatever group
/// stands on them.
#[test]
fn columns_of_two_buses(rt: HostRuntime) {
    let alloc = rt.alloc();
    let (a, b) = (on("a"), on("b"));
    let (two_a, two_b): ((&str, usize, u64), (&str, usize, u64)) = (("a", 2, 2), ("b", 2, 2));
    expect_columns(&rt, alloc, "two buses", &[a, b, a, b], 16, &[two_a, two_b]);
    let on_a = &[("a", 1, 1), two_a, two_b];
    expect_columns(
        &rt,
        alloc,
        "a group on a",
        &[a, b, a, b, group("a", 1)],
        16,
        on_a,
    );
    let on_b = &[("b", 1, 1), two_a, two_b];
    expect_columns(
        &rt,
        alloc,
        "a group on b",
        &[group("b", 1), a, b, a, b],
        16,
        on_b,
    );
}

#[test]
fn columns_of_buses_with_other_widths(rt: HostRuntime) {
    let alloc = rt.alloc();
    let (a, b) = (on("a"), wide("b", 2));
    expect_columns(
        &rt,
        alloc,
        "two widths",
        &[a, b, a, b, b],
        3,
        &[("a", 2, 2), ("b", 2, 2), ("b", 1, 1)],
    );
}

/// Within the degree 5 four lookups of one cell are one column.
#[test]
fn the_total_weight_stays(rt: HostRuntime) {
    let alloc = rt.alloc();
    let a = on("a");
    let members = [a, weighing("a", 0), a, a];
    let total = set(&rt, alloc, members.as_slice()).total_count_weight();
    holds(&rt, "before", total == 3);
    let packed = pack(&rt, alloc, members.as_slice(), 5).expect(&rt, "packed");
    let is_one = are_columns(packed.as_slice(), &[("a", 4, 3)]);
    holds(&rt, "after", is_one && packed.total_count_weight() == 3);
}

/// Weights add, where lookups are joined. A degree above the budget is found before a sum of weights
/// that does not fit.
#[test]
fn weights_of_more_than_32_bits(rt: HostRuntime) {
    let alloc = rt.alloc();
    let members = [weighing("a", 4294967295), on("a")];
    let sum = &[("a", 2, 4294967296)];
    expect_columns(&rt, alloc, "joined", members.as_slice(), 16, sum);
    let own = &[("a", 1, 4294967295), ("a", 1, 1)];
    expect_columns(&rt, alloc, "apart", members.as_slice(), 2, own);
    let members = [weighing("a", 18446744073709551615), on("a")];
    let own = &[("a", 1, 18446744073709551615), ("a", 1, 1)];
    expect_columns(&rt, alloc, "apart", members.as_slice(), 2, own);
}

#[test]
fn the_degree_of_a_cube(rt: HostRuntime) {
    let alloc = rt.alloc();
    let a = on("a");
    let columns = pack(&rt, alloc, &[a, a, power("a", 3), a], 3).expect(&rt, "packed");
    let columns = columns.as_slice();
    assert!(rt; columns.len() == 3 && has_equal_lengths(&columns[1]));
    let degree = LogUpGadget::new().constraint_degree(&columns[1]);
    holds(&rt, "4", degree == Ok(4));
}

/// Fails unless the gadget refuses to pack these for this.
fn expect_refusal(rt: &impl Abort, alloc: Global, members: &[Member<'_>], refusal: LookupError) {
    let refused = pack(rt, alloc, members, 16).err();
    assert!(rt; refused == Some(refusal));
}

/// The refusal of two widths on a bus.
fn two_widths(
    rt: &impl Abort,
    alloc: Global,
    bus: &str,
    width: usize,
    other: usize,
) -> LookupError {
    LookupError::TupleWidths {
        context: text(rt, alloc, bus),
        width,
        other,
    }
}

/// The widths are compared in the order of all lookups on buses: where both buses have two widths,
/// `b` is refused, since a group on it is the first lookup.
#[test]
fn refused_packings(rt: HostRuntime) {
    let alloc = rt.alloc();
    let (a, b, all) = (on("a"), on("b"), weighing("a", 18446744073709551615));
    let on_a = two_widths(&rt, alloc, "bus \"a\"", 1, 2);
    expect_refusal(&rt, alloc, &[a, group("a", 2)], on_a);
    let on_a = two_widths(&rt, alloc, "bus \"a\"", 1, 2);
    expect_refusal(&rt, alloc, &[a, wide("a", 2)], on_a);
    let on_b = two_widths(&rt, alloc, "bus \"b\"", 1, 3);
    let members = [group("b", 1), a, b, wide("a", 2), wide("b", 3)];
    expect_refusal(&rt, alloc, members.as_slice(), on_b);
    expect_refusal(&rt, alloc, &[all, a], LookupError::CountWeightOverflow);
}

/// A group of a branch of one cell and a branch of two, alone on its bus.
#[test]
fn a_group_of_two_widths(rt: HostRuntime) {
    let alloc = rt.alloc();
    let mut lookup = lookup_of(&rt, alloc, &group("a", 1), 0);
    let pair = list(&rt, alloc, [cell(0), cell(1)]);
    lookup.elements.push(pair).expect(&rt, "memory");
    lookup.multiplicities.push(one()).expect(&rt, "memory");
    lookup.flags = Some(list(&rt, alloc, [cell(2), cell(3)]));
    let records = list(&rt, alloc, [lookup]);
    let lookups = Lookups::from_records(alloc, records).expect(&rt, "records");
    let refused = lookups.pack_same_bus(alloc, &LogUpGadget::new(), 16).err();
    let on_a = two_widths(&rt, alloc, "bus \"a\"", 1, 2);
    holds(&rt, "two widths", refused == Some(on_a));
}

/// What is packed of these within the degree 3, with a closure that refuses each trial.
fn packed_by_refusing(
    rt: &impl Abort,
    alloc: Global,
    members: &[Member<'_>],
) -> Result<Lookups<F7>, LookupError> {
    set(rt, alloc, members).pack_same_bus_with_degree(
        alloc,
        3,
        |_| Err(LookupError::BadRecord { lookup: 9 }),
    )
}

#[test]
fn a_closure_that_refuses(rt: HostRuntime) {
    let alloc = rt.alloc();
    let (a, b, c) = (on("a"), on("b"), on("c"));
    let asked = packed_by_refusing(&rt, alloc, &[a, a]).err();
    let refusal = LookupError::BadRecord { lookup: 9 };
    holds(&rt, "its own error", asked == Some(refusal));
    let alone = packed_by_refusing(&rt, alloc, &[a, b, c]).expect(&rt, "three buses");
    let three = are_columns(alone.as_slice(), &[("a", 1, 1), ("b", 1, 1), ("c", 1, 1)]);
    holds(&rt, "it is not asked", three);
}

/// What is packed of these within a degree, with a closure that answers the weight of a trial, or 0.
fn packed_by_weight(
    rt: &impl Abort,
    alloc: Global,
    members: &[Member<'_>],
    degree: usize,
    weighs: bool,
) -> Lookups<F7> {
    set(rt, alloc, members)
        .pack_same_bus_with_degree(
            alloc,
            degree,
            |lookup| Ok(if weighs {
                lookup.count_weight as usize
            } else {
                0
            }),
        )
        .expect(rt, "packed")
}

#[test]
fn a_closure_for_the_degree(rt: HostRuntime) {
    let alloc = rt.alloc();
    let a = on("a");
    let five = packed_by_weight(&rt, alloc, &[a, a, a, a, a], 0, false);
    let one = are_columns(five.as_slice(), &[("a", 5, 5)]);
    holds(&rt, "all joined", one);
    let weights = [weighing("a", 5), weighing("a", 7), weighing("a", 9)];
    let columns = packed_by_weight(&rt, alloc, weights.as_slice(), 6, true);
    let two = are_columns(columns.as_slice(), &[("a", 2, 12), ("a", 1, 9)]);
    holds(&rt, "the weight of the trial", two);
}

/// How often the closure is asked for a degree, which it answers to each trial alike.
fn asked(rt: &impl Abort, alloc: Global, members: &[Member<'_>], answer: usize) -> usize {
    let number: Cell<usize> = Cell::new(0);
    set(rt, alloc, members)
        .pack_same_bus_with_degree(alloc, 3, |_| {
            number.set(number.get().saturating_add(1));
            Ok(answer)
        })
        .expect(rt, "packed");
    number.get()
}

#[test]
fn trials_alone_are_asked_about(rt: HostRuntime) {
    let alloc = rt.alloc();
    let (a, b, c) = (on("a"), on("b"), on("c"));
    holds(&rt, "no lone one", asked(&rt, alloc, &[a, b, c], 9) == 0);
    holds(&rt, "3 that join", asked(&rt, alloc, &[a, a, a, a], 3) == 3);
    holds(
        &rt,
        "3 that do not",
        asked(&rt, alloc, &[a, a, a, a], 4) == 3,
    );
}

/// The answer of a closure that refuses each trial, and how often it is asked.
fn refused_once(rt: &impl Abort, alloc: Global, members: &[Member<'_>]) -> (bool, usize) {
    let number: Cell<usize> = Cell::new(0);
    let refused = set(rt, alloc, members)
        .pack_same_bus_with_degree(alloc, 3, |_| {
            number.set(number.get().saturating_add(1));
            Err(LookupError::BadRecord { lookup: 9 })
        })
        .err();
    let own = refused == Some(LookupError::BadRecord { lookup: 9 });
    (own, number.get())
}

#[test]
fn a_refused_bus_stays_refused(rt: HostRuntime) {
    let alloc = rt.alloc();
    let a = on("a");
    let answer = refused_once(&rt, alloc, &[a, a, a, a]);
    holds(&rt, "asked once", answer == (true, 1));
}

/// The buses of the trials in their order, as digits: 1 for `a`, 2 for any other.
fn order_of_asking(rt: &impl Abort, alloc: Global, members: &[Member<'_>]) -> usize {
    let digits: Cell<usize> = Cell::new(0);
    set(rt, alloc, members)
        .pack_same_bus_with_degree(alloc, 3, |lookup| {
            let digit: usize = if is_on(lookup, "a") { 1 } else { 2 };
            digits.set(digits.get().saturating_mul(10).saturating_add(digit));
            Ok(0)
        })
        .expect(rt, "packed");
    digits.get()
}

#[test]
fn the_closure_is_asked_in_the_order_of_the_lookups(rt: HostRuntime) {
    let alloc = rt.alloc();
    let (a, b) = (on("a"), on("b"));
    let order = order_of_asking(&rt, alloc, &[a, b, b, a, b]);
    holds(&rt, "b, a, b", order == 212);
}

#[test]
fn an_overflow_before_a_later_refusal(rt: HostRuntime) {
    let alloc = rt.alloc();
    let (b, c) = (on("b"), on("c"));
    let all = weighing("b", 18446744073709551615);
    let refused = set(&rt, alloc, &[all, c, c, b])
        .pack_same_bus_with_degree(alloc, 3, |lookup| {
            if is_on(lookup, "c") {
                Err(LookupError::DegreeOverflow)
            } else {
                Ok(0)
            }
        })
        .err();
    let expected = Some(LookupError::CountWeightOverflow);
    holds(&rt, "the overflow", refused == expected);
}

/// Both calls can be made at given fields. They do nothing: what they are for is their contracts.
#[test]
fn laws_are_called_over_f7() {
    messages_keep_terminals::<F7, F7>();
    few_collisions::<F7>();
}

/// The fewest columns of a consecutive split in which each part has one lookup, or 1 and the sum of
/// its degrees is within the budget.
fn fewest(degrees: &[usize], budget: usize) -> usize {
    let mut best = degrees.len();
    let mut splits = 1usize;
    for _ in 1..degrees.len() {
        splits = splits.saturating_mul(2);
    }
    for split in 0..splits {
        let (mut rest, mut parts, mut members, mut sum) = (split, 0usize, 0usize, 1usize);
        let mut good = true;
        for degree in degrees {
            let cut_here = parts == 0 || rest % 2 == 1;
            if parts > 0 {
                rest /= 2;
            }
            if cut_here {
                parts = parts.saturating_add(1);
                members = 0;
                sum = 1;
            }
            members = members.saturating_add(1);
            sum = sum.saturating_add(*degree);
            good = good && (members == 1 || sum <= budget);
        }
        if good && parts < best {
            best = parts;
        }
    }
    best
}

/// Packs lookups of each list of so many degrees from 0 to 4 within a budget, and compares with all
/// splits. A number writes a list in base 5, lowest digit first.
fn expect_fewest(rt: &impl Abort, alloc: Global, length: usize, budget: usize) {
    let mut lists = 1usize;
    for _ in 0..length {
        lists = lists.saturating_mul(5);
    }
    for number in 0..lists {
        let (mut rest, mut degrees, mut members) = (number, Vec::new(alloc), Vec::new(alloc));
        for _ in 0..length {
            degrees.push(rest % 5).expect(rt, "memory");
            members.push(power("a", rest % 5)).expect(rt, "memory");
            rest /= 5;
        }
        let columns = pack(rt, alloc, members.as_slice(), budget).expect(rt, "packed");
        assert!(rt;
            columns.as_slice().len() == fewest(degrees.as_slice(), budget),
            "list {number}, budget {budget}"
        );
    }
}

/// All lists of at most five degrees from 0 to 4 within these two budgets, against all splits.
fn expect_fewest_of_all(rt: &impl Abort, alloc: Global, budgets: [usize; 2]) {
    for budget in budgets {
        for length in 1..6usize {
            expect_fewest(rt, alloc, length, budget);
        }
    }
}

#[test]
fn no_split_within_a_low_budget_has_fewer_columns(rt: HostRuntime) {
    expect_fewest_of_all(&rt, rt.alloc(), [1, 2]);
}

#[test]
fn no_split_within_a_middle_budget_has_fewer_columns(rt: HostRuntime) {
    expect_fewest_of_all(&rt, rt.alloc(), [3, 4]);
}

#[test]
fn no_split_within_a_high_budget_has_fewer_columns(rt: HostRuntime) {
    expect_fewest_of_all(&rt, rt.alloc(), [5, 6]);
}
