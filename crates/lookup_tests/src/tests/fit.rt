//! Why lookups do not fit traces.
use super::{alone, cell, holds, local, one, single, trace};
use air::{BaseEntry, BaseLeaf, Expression, SymbolicExpression, SymbolicVariable};
use field::{F7, PrimeCharacteristicRing};
use lookup::Lookup;
use lookup::debug_util::{Cell, FitFault, fit_fault};
use matrix::RowMajorMatrix;
use std::alloc::Global;
use std::process::Abort;

/// What `fit_fault` says over two columns, with a preprocessed trace of this height and one column, or without
/// one if it is 0, and one public value.
fn fault(
    rt: &impl Abort,
    alloc: Global,
    lookups: &[Lookup<F7>],
    preprocessed_height: usize,
) -> Option<FitFault> {
    let main = trace(rt, alloc, &[1, 2, 3, 4], 2);
    let cells = [5, 6, 0];
    let fixed: RowMajorMatrix<F7> = trace(
        rt,
        alloc,
        cells.get(..preprocessed_height).unwrap_or(&[]),
        1,
    );
    let preprocessed = if preprocessed_height > 0 {
        Some(&fixed)
    } else {
        None
    };
    fit_fault(&main, preprocessed, &[F7::ONE], lookups)
}

/// A variable.
fn variable(entry: BaseEntry, index: usize) -> SymbolicExpression<F7> {
    SymbolicExpression::Leaf(BaseLeaf::Variable(SymbolicVariable::new(entry, index)))
}

/// A local lookup of one tuple of this element, with this count.
fn of(
    rt: &impl Abort,
    alloc: Global,
    element: SymbolicExpression<F7>,
    count: SymbolicExpression<F7>,
    column: usize,
) -> Lookup<F7> {
    let tuple = alone(rt, alloc, element);
    local(alone(rt, alloc, tuple), alone(rt, alloc, count), column)
}

/// A fault of a lookup that reads a cell in a row of so many.
fn missing(lookup: usize, entry: BaseEntry, index: usize, width: usize) -> Option<FitFault> {
    Some(FitFault::Missing {
        lookup,
        cell: Cell { entry, index },
        width,
    })
}

#[test]
fn lookups_that_fit_have_no_fault(rt: HostRuntime) {
    let alloc = rt.alloc();
    let fixed = variable(BaseEntry::Preprocessed { offset: 1 }, 0);
    let public = variable(BaseEntry::Public, 0);
    let lookups = [single(&rt, alloc, 2, 0), of(&rt, alloc, fixed, public, 1)];
    holds(&rt, "they fit", fault(&rt, alloc, &lookups, 2).is_none());
    holds(&rt, "no lookup fits", fault(&rt, alloc, &[], 0).is_none());
}

/// The first lookup, the first cell from left to right, and the tuple before the count.
#[test]
fn the_first_cell_that_is_missing(rt: HostRuntime) {
    let alloc = rt.alloc();
    let main = BaseEntry::Main { offset: 0 };
    let wide = [single(&rt, alloc, 2, 0), single(&rt, alloc, 4, 1)];
    holds(
        &rt,
        "a third column",
        fault(&rt, alloc, &wide, 0) == missing(1, main, 2, 2),
    );
    let sum = cell(1).add(alloc, cell(7)).expect(&rt, "memory");
    let both = sum.mul(alloc, cell(9)).expect(&rt, "memory");
    let lookups = [of(&rt, alloc, both, cell(3), 0)];
    holds(
        &rt,
        "the left one",
        fault(&rt, alloc, &lookups, 0) == missing(0, main, 7, 2),
    );
    let lookups = [of(&rt, alloc, cell(0), cell(3), 0)];
    holds(
        &rt,
        "a count",
        fault(&rt, alloc, &lookups, 0) == missing(0, main, 3, 2),
    );
    let fixed = BaseEntry::Preprocessed { offset: 0 };
    let lookups = [of(&rt, alloc, variable(fixed, 0), one(), 0)];
    holds(
        &rt,
        "no such trace",
        fault(&rt, alloc, &lookups, 0) == missing(0, fixed, 0, 0),
    );
    let public = BaseEntry::Public;
    let lookups = [of(&rt, alloc, one(), variable(public, 1), 0)];
    holds(
        &rt,
        "a public value",
        fault(&rt, alloc, &lookups, 2) == missing(0, public, 1, 1),
    );
    let after = BaseEntry::Main { offset: 2 };
    let lookups = [of(&rt, alloc, variable(after, 1), one(), 0)];
    holds(
        &rt,
        "a third row",
        fault(&rt, alloc, &lookups, 0) == missing(0, after, 1, 2),
    );
}

#[test]
fn malformed_lookups_and_heights(rt: HostRuntime) {
    let alloc = rt.alloc();
    let lookups = [single(&rt, alloc, 4, 0), single(&rt, alloc, 1, 0)];
    let malformed = Some(FitFault::Malformed { lookup: 1 });
    holds(
        &rt,
        "a column twice",
        fault(&rt, alloc, &lookups, 0) == malformed,
    );
    let lookups = [single(&rt, alloc, 2, 0)];
    let heights = Some(FitFault::Heights {
        main: 2,
        preprocessed: 3,
    });
    holds(&rt, "three rows", fault(&rt, alloc, &lookups, 3) == heights);
}
