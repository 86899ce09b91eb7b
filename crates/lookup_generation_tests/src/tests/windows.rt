//! What lookups read of the traces.
use super::{Made, are_numbers, generate_over, holds, list, local, one, trace};
use air::{BaseEntry, BaseLeaf, Expression, SymbolicExpression, SymbolicVariable};
use field::F7;
use std::alloc::Global;
use std::process::Abort;

type Tree = SymbolicExpression<F7>;

/// The first cell or value of this kind.
fn entry(entry: BaseEntry) -> Tree {
    SymbolicExpression::Leaf(BaseLeaf::Variable(SymbolicVariable::new(entry, 0)))
}

/// What generation makes of the local lookup of one element with count 1, at the prefix 0, over these
/// main and preprocessed cells and the public value 3.
fn made_of(
    rt: &impl Abort,
    alloc: Global,
    element: Tree,
    main: &[u32],
    preprocessed: &[u32],
) -> Made<F7> {
    let main = trace::<F7>(rt, alloc, main, 1);
    let preprocessed = trace::<F7>(rt, alloc, preprocessed, 1);
    let public_values = [F7::new(3)];
    let tuple = list(rt, alloc, [element]);
    let lookups = [local(list(rt, alloc, [tuple]), list(rt, alloc, [one()]), 0)];
    let challenges = [F7::new(0), F7::new(2)];
    let made = generate_over(
        rt,
        alloc,
        &main,
        Some(&preprocessed),
        public_values.as_slice(),
        lookups.as_slice(),
        challenges.as_slice(),
    );
    made.expect(rt, "no fault")
}

/// As many copies of a number, and then another one.
fn numbers(rt: &impl Abort, alloc: Global, copies: usize, number: u32, last: u32) -> Vec<u32> {
    let mut numbers = Vec::new(alloc);
    for _ in 0..copies {
        numbers.push(number).expect(rt, "memory");
    }
    numbers.push(last).expect(rt, "memory");
    numbers
}

/// The last row of a chunk and the only one of the next: the main cells are 3 and at last 4, the
/// preprocessed ones 4 and at last 3. A 3 adds 1 / -3 = 2, and a 4 adds 1 / -4 = 5. So the accumulator of
/// row 1023 is 1023 * 2 = 2 or 1023 * 5 = 5.
#[test]
fn entries_are_read_where_chunks_meet(rt: HostRuntime) {
    let alloc = rt.alloc();
    let main = numbers(&rt, alloc, 1024, 3, 4);
    let preprocessed = numbers(&rt, alloc, 1024, 4, 3);
    for (what, kind, cells) in [
        (
            "the current row",
            BaseEntry::Main { offset: 0 },
            [2, 2, 4, 5],
        ),
        ("the next row", BaseEntry::Main { offset: 1 }, [2, 5, 0, 2]),
        (
            "a fixed row",
            BaseEntry::Preprocessed { offset: 0 },
            [5, 5, 3, 2],
        ),
        (
            "the next fixed row",
            BaseEntry::Preprocessed { offset: 1 },
            [5, 2, 0, 5],
        ),
        ("a public value", BaseEntry::Public, [2, 2, 4, 2]),
    ] {
        let element = entry(kind);
        let made = made_of(
            &rt,
            alloc,
            element,
            main.as_slice(),
            preprocessed.as_slice(),
        );
        let values = made.auxiliary.values();
        assert!(rt; values.len() == 2050);
        holds(&rt, what, are_numbers(&values[2046..], cells.as_slice()));
    }
}

/// A leaf of no trace.
fn leaf(leaf: BaseLeaf<F7>) -> Tree {
    SymbolicExpression::Leaf(leaf)
}

/// The sum of 3 and a leaf.
fn past_three(rt: &impl Abort, alloc: Global, other: BaseLeaf<F7>) -> Tree {
    let three = leaf(BaseLeaf::Constant(F7::new(3)));
    three.add(alloc, leaf(other)).expect(rt, "memory")
}

/// A cell of the current row, or of the next one.
fn main_cell(offset: usize) -> Tree {
    entry(BaseEntry::Main { offset })
}

/// Fails unless the element makes these cells over the main cells 3, 4 and 6.
fn expect(rt: &impl Abort, alloc: Global, what: &str, element: Tree, cells: [u32; 6]) {
    let made = made_of(rt, alloc, element, &[3, 4, 6], &[4, 4, 4]);
    let are_these = are_numbers(made.auxiliary.values(), cells.as_slice());
    holds(rt, what, are_these);
}

/// At the prefix 0 the elements 1 to 6 add 6, 3, 2, 5, 4 and 1.
#[test]
fn elements_of_each_kind(rt: HostRuntime) {
    let alloc = rt.alloc();
    expect(&rt, alloc, "3, 4, 6", main_cell(0), [0, 2, 2, 5, 0, 1]);
    let negated = main_cell(0).neg(alloc).expect(&rt, "memory");
    expect(&rt, alloc, "4, 3, 1", negated, [0, 5, 5, 2, 0, 6]);
    let product = main_cell(0).mul(alloc, main_cell(1)).expect(&rt, "memory");
    expect(&rt, alloc, "5, 3, 4", product, [0, 4, 4, 2, 6, 5]);
    let difference = main_cell(0).sub(alloc, main_cell(1)).expect(&rt, "memory");
    expect(&rt, alloc, "6, 5, 3", difference, [0, 1, 1, 4, 5, 2]);
}

#[test]
fn elements_of_each_selector(rt: HostRuntime) {
    let alloc = rt.alloc();
    let first = past_three(&rt, alloc, BaseLeaf::IsFirstRow);
    expect(&rt, alloc, "4, 3, 3", first, [0, 5, 5, 2, 0, 2]);
    let last = past_three(&rt, alloc, BaseLeaf::IsLastRow);
    expect(&rt, alloc, "3, 3, 4", last, [0, 2, 2, 2, 4, 5]);
    let step = past_three(&rt, alloc, BaseLeaf::IsTransition);
    expect(&rt, alloc, "4, 4, 3", step, [0, 5, 5, 5, 3, 2]);
}
