//! Degrees of the constraints of lookups.
use super::{cell, group, holds, list, local, one};
use air::{BaseLeaf, Expression, SymbolicExpression};
use field::F7;
use lookup::{LogUpGadget, Lookup, LookupError, LookupProtocol, has_equal_lengths};
use std::alloc::Global;
use std::process::Abort;

/// A cell, or the transition selector, to this power.
fn raised(
    rt: &impl Abort,
    alloc: Global,
    is_selector: bool,
    power: usize,
) -> SymbolicExpression<F7> {
    let mut product = one();
    for _ in 0..power {
        let factor = if is_selector {
            SymbolicExpression::Leaf(BaseLeaf::IsTransition)
        } else {
            cell(0)
        };
        product = product.mul(alloc, factor).expect(rt, "memory");
    }
    product
}

/// A lookup of tuples of one cell to each of these powers, each with a cell as its multiplicity.
fn of_degrees(rt: &impl Abort, alloc: Global, degrees: &[usize]) -> Lookup<F7> {
    let mut elements = Vec::new(alloc);
    let mut multiplicities = Vec::new(alloc);
    for degree in degrees {
        elements
            .push(list(rt, alloc, [raised(rt, alloc, false, *degree)]))
            .expect(rt, "memory");
        multiplicities.push(cell(0)).expect(rt, "memory");
    }
    local(elements, multiplicities, 0)
}

/// A lookup of the transition selector to one power, with it to another as the multiplicity.
fn by_selector(rt: &impl Abort, alloc: Global, element: usize, multiplicity: usize) -> Lookup<F7> {
    let tuple = list(rt, alloc, [raised(rt, alloc, true, element)]);
    let count = raised(rt, alloc, true, multiplicity);
    local(list(rt, alloc, [tuple]), list(rt, alloc, [count]), 0)
}

/// The same under the flag of the transition selector.
fn under_selector(
    rt: &impl Abort,
    alloc: Global,
    element: usize,
    multiplicity: usize,
) -> Lookup<F7> {
    let mut lookup = by_selector(rt, alloc, element, multiplicity);
    lookup.flags = Some(list(rt, alloc, [raised(rt, alloc, true, 1)]));
    lookup
}

/// The degree of a lookup, whose lists have to have equal lengths. Where the transition selector has
/// degree 0, both calls have to say the same.
fn degree_of(rt: &impl Abort, lookup: &Lookup<F7>, transition: usize) -> Option<usize> {
    assert!(rt; has_equal_lengths(lookup));
    let gadget = LogUpGadget::new();
    let own = gadget.constraint_degree_with_transition(lookup, transition);
    if transition == 0 {
        holds(rt, "both calls", gadget.constraint_degree(lookup) == own);
    }
    match own {
        Ok(degree) => Some(degree),
        Err(error) => {
            holds(rt, "the refusal", error == LookupError::DegreeOverflow);
            None
        }
    }
}

/// Fails unless a lookup has this degree, where it fits, if the transition selector has this one.
fn expect(
    rt: &impl Abort,
    what: &str,
    lookup: Lookup<F7>,
    transition: usize,
    degree: Option<usize>,
) {
    holds(rt, what, degree_of(rt, &lookup, transition) == degree);
}

#[test]
fn degrees_of_lookups(rt: HostRuntime) {
    let alloc = rt.alloc();
    let two = of_degrees(&rt, alloc, &[1, 1]);
    expect(&rt, "1 and 1", two, 0, Some(3));
    let three = of_degrees(&rt, alloc, &[1, 2, 3]);
    expect(&rt, "1, 2, 3", three, 0, Some(7));
    let none = of_degrees(&rt, alloc, &[]);
    expect(&rt, "no tuples", none, 0, Some(1));
    // the product of eight denominators of degree 1, by the fraction; a group of eight has degree 3
    let eight = of_degrees(&rt, alloc, &[1; 8]);
    expect(&rt, "eight tuples", eight, 0, Some(9));
    for (branches, degree) in [(0, 1), (1, 3), (8, 3)] {
        let branches = group(&rt, alloc, branches, 0);
        expect(&rt, "branches", branches, 0, Some(degree));
    }
}

#[test]
fn degrees_by_that_of_the_transition_selector(rt: HostRuntime) {
    let alloc = rt.alloc();
    let (most, less) = (usize::MAX, usize::MAX - 1);
    for (transition, degree) in [(0, Some(1)), (1, Some(5)), (most, None)] {
        let lookup = by_selector(&rt, alloc, 2, 5);
        expect(&rt, "squares", lookup, transition, degree);
    }
    for (transition, degree) in [(0, 1), (1, 6)] {
        let lookup = under_selector(&rt, alloc, 2, 5);
        expect(&rt, "a flag", lookup, transition, Some(degree));
    }
    for (transition, degree) in [(most, None), (less, Some(most))] {
        let lookup = by_selector(&rt, alloc, 1, 0);
        expect(&rt, "the greatest", lookup, transition, degree);
    }
}
