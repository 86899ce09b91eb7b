//! What a fixed trace says of its cells.
use super::constraints::trace_of;
use super::{holds, list};
use air::Traces;
use air_constraints::check_constraints;
use air_expressions::{BaseEntry, BaseLeaf, Expression, SymbolicExpression, SymbolicVariable};
use field::{F7, Field, PrimeCharacteristicRing};
use field_monty::BabyBear;
use lookup::{Kind, Lookup};
use lookup_enforced::{constraints_over_fixed, enforcements, fixed_constraints};
use matrix::RowMajorMatrix;
use std::alloc::Global;
use std::process::Abort;

/// Columns 0 and 1 are 1 on rows 0 and 1 alone; the third one counts from 0, and the fourth is 1 on rows 1 and 2.
fn fixed(rt: &impl Abort, alloc: Global) -> RowMajorMatrix<F7> {
    let rows = [1, 0, 0, 0, 0, 1, 1, 1, 0, 0, 2, 1, 0, 0, 3, 0];
    trace_of(alloc, rows.as_slice(), 4).expect(rt, "four rows")
}

/// A cell of a fixed column, of the current row at offset 0 and of the next one at offset 1.
fn cell(offset: usize, column: usize) -> SymbolicExpression<F7> {
    SymbolicVariable::new(BaseEntry::Preprocessed { offset }, column).into()
}

/// An exclusive lookup of two empty tuples with these flags.
fn exclusive(rt: &impl Abort, alloc: Global, flags: [SymbolicExpression<F7>; 2]) -> Lookup<F7> {
    Lookup {
        kind: Kind::Local,
        elements: list(rt, alloc, [Vec::new(alloc), Vec::new(alloc)]),
        multiplicities: list(
            rt,
            alloc,
            [
                SymbolicExpression::constant(F7::ONE),
                SymbolicExpression::constant(F7::ONE),
            ],
        ),
        count_weight: 1,
        column: 0,
        flags: Some(list(rt, alloc, flags)),
    }
}

/// Whether these two flags are shown to be lawful on four rows, by what the fixed trace says of these columns.
fn are_shown(
    rt: &impl Abort,
    alloc: Global,
    columns: &[usize],
    flags: [SymbolicExpression<F7>; 2],
) -> bool {
    let known = fixed_constraints(alloc, &fixed(rt, alloc), columns).expect(rt, "memory");
    let lookups = list(rt, alloc, [exclusive(rt, alloc, flags)]);
    let shown = enforcements(alloc, known.as_slice(), lookups.as_slice(), 4).expect(rt, "memory");
    shown.first().expect(rt, "a lookup").flags
}

/// Columns of zeros and ones that are nowhere both one are lawful flags, on the row and on the next one.
#[test]
fn fixed_flags(rt: HostRuntime) {
    let alloc = rt.alloc();
    let both = [0, 1].as_slice();
    holds(
        &rt,
        "apart",
        are_shown(&rt, alloc, both, [cell(0, 0), cell(0, 1)]),
    );
    holds(
        &rt,
        "next",
        are_shown(&rt, alloc, both, [cell(1, 0), cell(1, 1)]),
    );
    holds(
        &rt,
        "one alone",
        !are_shown(&rt, alloc, &[0], [cell(0, 0), cell(0, 1)]),
    );
    let others = [1, 3].as_slice();
    holds(
        &rt,
        "both set",
        !are_shown(&rt, alloc, others, [cell(0, 1), cell(0, 3)]),
    );
    let numbers = [0, 2].as_slice();
    holds(
        &rt,
        "numbers",
        !are_shown(&rt, alloc, numbers, [cell(0, 0), cell(0, 2)]),
    );
}

/// Two constraints for each column of zeros and ones, and, as their sum is no bit, two for each pair of them that is nowhere
/// both one. They hold on the trace. A column that is missing has zeros alone, and so has its product with any other.
#[test]
fn fixed_constraints_hold(rt: HostRuntime) {
    let alloc = rt.alloc();
    let trace = fixed(&rt, alloc);
    let known = fixed_constraints(alloc, &trace, &[0, 1, 2, 3]).expect(&rt, "memory");
    holds(&rt, "three columns, two pairs", known.len() == 10);
    let traces = Traces {
        main: &trace,
        preprocessed: Some(&trace),
        public_values: &[],
    };
    holds(
        &rt,
        "they hold",
        check_constraints(known.as_slice(), &traces).is_ok(),
    );
    let missing = fixed_constraints(alloc, &trace, &[0, 0, 9]).expect(&rt, "memory");
    holds(
        &rt,
        "one column twice, and a missing one",
        missing.len() == 10,
    );
    let none = fixed_constraints::<F7>(alloc, &trace, &[]).expect(&rt, "memory");
    holds(&rt, "no columns", none.is_empty());
}

/// Whether the constraint at this index is a product, or a difference.
fn is_kind(known: &[SymbolicExpression<F7>], index: usize, is_product: bool) -> bool {
    match known.get(index) {
        Some(SymbolicExpression::Mul(_, _)) => is_product,
        Some(SymbolicExpression::Sub(_, _)) => !is_product,
        _ => false,
    }
}

/// Of columns whose sum is a bit that is said once, in place of what each pair is. Of columns whose sum is one that is
/// said, and nothing of its square.
#[test]
fn sums_of_fixed_columns(rt: HostRuntime) {
    let alloc = rt.alloc();
    let apart = fixed_constraints(alloc, &fixed(&rt, alloc), &[0, 1]).expect(&rt, "memory");
    holds(&rt, "two columns, one sum", apart.len() == 6);
    holds(&rt, "a square", is_kind(apart.as_slice(), 4, true));
    // the third column is 1 on the last two rows, on which the first two are 0
    let rows = [1, 0, 0, 0, 1, 0, 0, 0, 1, 0, 0, 1];
    let trace = trace_of(alloc, rows.as_slice(), 3).expect(&rt, "four rows");
    let one = fixed_constraints(alloc, &trace, &[0, 1, 2]).expect(&rt, "memory");
    holds(&rt, "three columns, one sum", one.len() == 8);
    holds(&rt, "linear", is_kind(one.as_slice(), 6, false));
    let flags = [cell(0, 1), cell(0, 2)];
    let lookup = exclusive(&rt, alloc, flags);
    let shown = enforcements(alloc, one.as_slice(), &[lookup], 4).expect(&rt, "memory");
    holds(&rt, "shown", shown.first().expect(&rt, "a lookup").flags);
}

/// So many constraints are found of so many columns, of which each row sets one, or none on a further row.
fn finds<F: Field>(
    rt: &impl Abort,
    alloc: Global,
    count: usize,
    has_empty_row: bool,
    wanted: usize,
) {
    let (mut cells, mut columns) = (Vec::new(alloc), Vec::new(alloc));
    for row in 0..count {
        columns.push(row).expect(rt, "memory");
        for column in 0..count {
            let cell = F::from_bool(column == row);
            cells.push(cell).expect(rt, "memory");
        }
    }
    if has_empty_row {
        for _column in 0..count {
            cells.push(F::ZERO).expect(rt, "memory");
        }
    }
    let is_whole = count > 0 && cells.len() % count == 0;
    assert!(rt; is_whole, "whole rows");
    let trace = RowMajorMatrix::new(cells, count);
    let known = fixed_constraints(alloc, &trace, columns.as_slice()).expect(rt, "memory");
    assert!(rt;
        known.len() == wanted,
        "of {count} columns, {has_empty_row}"
    );
}

/// Two constraints for each column, and two for their sum: if it is one, however many there are; if it is a bit, of 63
/// columns and none more. As many columns as the characteristic have no sum that says anything, so each of the 21 pairs of
/// seven has two constraints.
#[test]
fn many_fixed_columns(rt: HostRuntime) {
    let alloc = rt.alloc();
    finds::<BabyBear>(&rt, alloc, 64, false, 130);
    finds::<BabyBear>(&rt, alloc, 63, true, 128);
    finds::<BabyBear>(&rt, alloc, 64, true, 128);
    finds::<F7>(&rt, alloc, 6, false, 14);
    finds::<F7>(&rt, alloc, 7, false, 56);
}

/// What a preprocessed trace says of the columns that flags and counts read stands behind the constraints: of each that it
/// has bits, once, and of those of the flags of one lookup whether they are exclusive. Other columns are not looked at.
#[test]
fn constraints_over_fixed_columns(rt: HostRuntime) {
    let alloc = rt.alloc();
    let trace = fixed(&rt, alloc);
    let main = SymbolicVariable::new(BaseEntry::Main { offset: 0 }, 0);
    let constraints = list(&rt, alloc, [SymbolicExpression::from(main)]);
    let counted = Lookup {
        kind: Kind::Local,
        elements: list(&rt, alloc, [Vec::new(alloc)]),
        multiplicities: list(&rt, alloc, [cell(0, 3)]),
        count_weight: 1,
        column: 1,
        flags: None,
    };
    let flagged = exclusive(&rt, alloc, [cell(0, 0), cell(1, 1)]);
    let lookups = list(&rt, alloc, [flagged, counted]);
    let all = constraints_over_fixed(alloc, &constraints, &lookups, &trace).expect(&rt, "memory");
    holds(&rt, "one, three bits and a sum", all.len() == 9);
    let is_first = match all.first() {
        Some(SymbolicExpression::Leaf(BaseLeaf::Variable(variable))) => {
            matches!(variable.entry, BaseEntry::Main { .. })
        }
        _ => false,
    };
    holds(&rt, "the first is that of the AIR", is_first);
    let shown = enforcements(alloc, all.as_slice(), &lookups, 4).expect(&rt, "memory");
    let first = shown.first().expect(&rt, "a lookup");
    holds(&rt, "not of a row and the next", !first.flags);
    let second = shown.get(1).expect(&rt, "two lookups");
    let bound = [Some(1)].as_slice();
    holds(&rt, "a count", second.bounds.as_slice() == bound);
}
