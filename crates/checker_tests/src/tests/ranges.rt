//! Checks of ranges of rows, and both works on a range from the rows around it.
use super::{alone, are_below, cell, holds, instance, range, table, terminal, trace};
use air::{
    AirLayout, BaseEntry, BaseLeaf, Expression, SymbolicExpression, SymbolicVariable, Traces,
};
use checker::{
    BatchInstance, RowRange, check_in_ranges, check_result, check_shape, checks_join,
    generate_around, instance_fits, results_join, rows_hold_around, rows_hold_until,
};
use field::{ExtensionField, F7, Field, PrimeCharacteristicRing};
use lookup::{Challenges, Kind, Lookup, LookupError, LookupTerminal, fits};
use lookup_generation::shift;
use matrix::RowMajorMatrix;
use std::alloc::Global;
use std::process::Abort;

/// Up to which of the rows from `first` up to `end` the constraints hold over a result of an AIR.
pub(super) fn until<F: Field, EF: ExtensionField<F>>(
    rt: &impl Abort,
    alloc: Global,
    instance: &BatchInstance<'_, F>,
    challenges: &Challenges<EF>,
    aux: &RowMajorMatrix<EF>,
    terminal: &Option<LookupTerminal<EF>>,
    (first, end): (usize, usize),
) -> usize {
    assert!(rt; instance_fits(instance) && are_below(instance.ids, challenges.bus_prefix.len()));
    assert!(rt; first <= end && end <= instance.main.height());
    match check_shape(0, instance, aux, terminal) {
        Ok(()) => rows_hold_until(alloc, instance, challenges, aux, terminal, first, end).expect(
            rt, "memory",
        ),
        Err(_) => panic!(rt; "another shape"),
    }
}

/// The rows `3 4 1` and `4 3 1` at alpha 5 and beta 2, whose witness is `0 4`, `4 3` and 0. A changed
/// fraction fails on its own row.
#[test]
fn ranges_of_two_rows(rt: HostRuntime) {
    let alloc = rt.alloc();
    let main = trace(&rt, alloc, &[3, 4, 1, 4, 3, 1], 3);
    let lookups = [range(&rt, alloc)];
    let air = instance(lookups.as_slice(), &main, &[0]);
    let challenges = table(&rt, alloc, 5, 2, 1);
    let last = terminal(0);
    let good = trace(&rt, alloc, &[0, 4, 4, 3], 2);
    let first_changed = trace(&rt, alloc, &[0, 5, 4, 3], 2);
    let last_changed = trace(&rt, alloc, &[0, 4, 4, 4], 2);
    for (rows, wanted) in [
        ((0usize, 1usize), [1usize, 0, 1]),
        ((1, 2), [2, 2, 1]),
        ((0, 2), [2, 0, 1]),
        ((1, 1), [1, 1, 1]),
    ] {
        let found = [
            until(&rt, alloc, &air, &challenges, &good, &last, rows),
            until(&rt, alloc, &air, &challenges, &first_changed, &last, rows),
            until(&rt, alloc, &air, &challenges, &last_changed, &last, rows),
        ];
        holds(&rt, "up to which row", found == wanted);
    }
}

/// What the check of AIR 3 says in two ranges of rows, of which the first ends at `middle`.
fn checked_in_two(
    rt: &impl Abort,
    alloc: Global,
    air: &BatchInstance<'_, F7>,
    challenges: &Challenges<F7>,
    aux: &RowMajorMatrix<F7>,
    terminal: &Option<LookupTerminal<F7>>,
    middle: usize,
) -> Result<(), LookupError> {
    let height = air.main.height();
    assert!(rt; instance_fits(air) && are_below(air.ids, challenges.bus_prefix.len()));
    assert!(rt; middle <= height);
    let ends = [middle, height];
    check_in_ranges(alloc, 3, air, challenges, aux, terminal, ends.as_slice())
}

/// What the check of AIR 3 says of all rows at once.
fn checked_alone(
    rt: &impl Abort,
    alloc: Global,
    air: &BatchInstance<'_, F7>,
    challenges: &Challenges<F7>,
    aux: &RowMajorMatrix<F7>,
    terminal: &Option<LookupTerminal<F7>>,
) -> Result<(), LookupError> {
    assert!(rt; instance_fits(air) && are_below(air.ids, challenges.bus_prefix.len()));
    check_result(alloc, 3, air, challenges, aux, terminal)
}

/// The same rows, checked one after the other: a changed fraction is refused at its row, and of two the first
/// one is named.
#[test]
fn an_air_checked_in_ranges(rt: HostRuntime) {
    checks_join::<F7, F7>();
    results_join::<F7, F7>();
    let alloc = rt.alloc();
    let main = trace(&rt, alloc, &[3, 4, 1, 4, 3, 1], 3);
    let lookups = [range(&rt, alloc)];
    let air = instance(lookups.as_slice(), &main, &[0]);
    let challenges = table(&rt, alloc, 5, 2, 1);
    let last = terminal(0);
    for (cells, failing) in [
        ([0u32, 4, 4, 3], None),
        ([0, 4, 4, 4], Some(1usize)),
        ([0, 5, 4, 3], Some(0)),
        ([0, 5, 4, 4], Some(0)),
    ] {
        let aux = trace(&rt, alloc, cells.as_slice(), 2);
        let answer = checked_in_two(&rt, alloc, &air, &challenges, &aux, &last, 1);
        let failed = failing.map(|row| LookupError::ConstraintFailed { air: 3, row });
        holds(&rt, "the answer", answer.err() == failed);
        let failed = failing.map(|row| LookupError::ConstraintFailed { air: 3, row });
        let answer = checked_alone(&rt, alloc, &air, &challenges, &aux, &last);
        holds(
            &rt,
            "the answer for all rows at once",
            answer.err() == failed,
        );
    }
    let narrow = trace(&rt, alloc, &[0, 4], 1);
    let refused = checked_in_two(&rt, alloc, &air, &challenges, &narrow, &last, 2);
    let width = LookupError::PermutationWidthMismatch {
        air: 3,
        expected: 2,
    };
    holds(&rt, "the shape first", refused == Err(width));
    let refused = checked_alone(&rt, alloc, &air, &challenges, &narrow, &None);
    let presence = LookupError::TerminalPresenceMismatch {
        air: 3,
        expected_present: true,
        got_present: false,
    };
    holds(
        &rt,
        "the terminal before the width",
        refused == Err(presence),
    );
}

/// The rows of a matrix around a range.
fn around(
    rt: &impl Abort,
    alloc: Global,
    whole: &RowMajorMatrix<F7>,
    rows: RowRange,
) -> RowMajorMatrix<F7> {
    let mut values = Vec::new(alloc);
    for row in 0..whole.height() {
        if row == 0 || (rows.first <= row && row <= rows.end) {
            for value in whole.row_slice(row) {
                values.push(*value).expect(rt, "memory");
            }
        }
    }
    let width = whole.width();
    assert!(rt; width > 0 && values.len() % width == 0);
    RowMajorMatrix::new(values, width)
}

/// The rows of the preprocessed trace around a range, where there is one.
fn preprocessed_around(
    rt: &impl Abort,
    alloc: Global,
    whole: &BatchInstance<'_, F7>,
    rows: RowRange,
) -> Option<RowMajorMatrix<F7>> {
    match whole.preprocessed {
        Some(trace) => Some(around(rt, alloc, trace, rows)),
        None => None,
    }
}

/// One AIR whose lookup has the id 0.
fn one_air<'a>(
    lookups: &'a [Lookup<F7>],
    main: &'a RowMajorMatrix<F7>,
    preprocessed: Option<&'a RowMajorMatrix<F7>>,
    public_values: &'a [F7],
) -> BatchInstance<'a, F7> {
    BatchInstance {
        lookups,
        main,
        preprocessed,
        public_values,
        ids: &[0],
    }
}

/// What is made of a range of rows, from the rows around it.
fn made_around(
    rt: &impl Abort,
    alloc: Global,
    part: &BatchInstance<'_, F7>,
    challenges: &Challenges<F7>,
    rows: RowRange,
) -> Result<(RowMajorMatrix<F7>, F7), LookupError> {
    if let Some(trace) = part.preprocessed {
        assert!(rt; trace.height() == part.main.height());
    }
    let traces = Traces {
        main: part.main,
        preprocessed: part.preprocessed,
        public_values: part.public_values,
    };
    let layout = AirLayout::of_traces(part.main, part.preprocessed, part.public_values);
    assert!(rt; fits(part.lookups, &layout) && part.lookups.len() == 1);
    assert!(rt; rows.first < rows.end && rows.end <= rows.height);
    assert!(rt; part.main.height() == rows.rows_around());
    assert!(rt; challenges.bus_prefix.len() > 0);
    let columns = [challenges.bus_prefix[0], challenges.beta];
    generate_around(alloc, &traces, part.lookups, &columns, rows)
}

/// Up to which row of a range the constraints hold, from the rows around it.
fn until_around(
    rt: &impl Abort,
    alloc: Global,
    part: &BatchInstance<'_, F7>,
    challenges: &Challenges<F7>,
    aux: &RowMajorMatrix<F7>,
    terminal: &Option<LookupTerminal<F7>>,
    rows: RowRange,
) -> usize {
    assert!(rt; instance_fits(part) && are_below(part.ids, challenges.bus_prefix.len()));
    assert!(rt; rows.first < rows.end && rows.end <= rows.height);
    assert!(rt; part.main.height() == rows.rows_around());
    let columns = challenges.for_columns(alloc, part.ids).expect(rt, "memory");
    match check_shape(0, part, aux, terminal) {
        Ok(()) => rows_hold_around(alloc, part, &columns, aux, terminal, rows).expect(rt, "memory"),
        Err(_) => panic!(rt; "another shape"),
    }
}

/// An entry in column 0, or the public value 0.
fn entry(entry: BaseEntry) -> SymbolicExpression<F7> {
    SymbolicExpression::Leaf(BaseLeaf::Variable(SymbolicVariable::new(entry, 0)))
}

/// A local lookup of the tuple of one element, with this count.
fn one_tuple(
    rt: &impl Abort,
    alloc: Global,
    element: SymbolicExpression<F7>,
    count: SymbolicExpression<F7>,
) -> Lookup<F7> {
    Lookup {
        kind: Kind::Local,
        elements: alone(rt, alloc, alone(rt, alloc, element)),
        multiplicities: alone(rt, alloc, count),
        count_weight: 1,
        column: 0,
        flags: None,
    }
}

/// A lookup that sees the next row and each selector: the tuple of the next row's cell 0, plus one on the
/// first row; its count is cell 1, plus one on the last row, less one before it.
fn seeing(rt: &impl Abort, alloc: Global) -> Lookup<F7> {
    let first = SymbolicExpression::Leaf(BaseLeaf::IsFirstRow);
    let last = SymbolicExpression::Leaf(BaseLeaf::IsLastRow);
    let transition = SymbolicExpression::Leaf(BaseLeaf::IsTransition);
    let element = entry(BaseEntry::Main { offset: 1 })
        .add(alloc, first)
        .expect(rt, "memory");
    let count = cell::<F7>(1).add(alloc, last).expect(rt, "memory");
    let count = count.sub(alloc, transition).expect(rt, "memory");
    one_tuple(rt, alloc, element, count)
}

/// A lookup that sees the next preprocessed row and the public values: the tuple of their sum, with cell 1 as
/// its count.
fn seeing_fixed(rt: &impl Abort, alloc: Global) -> Lookup<F7> {
    let element = entry(BaseEntry::Preprocessed { offset: 1 })
        .add(alloc, entry(BaseEntry::Public))
        .expect(rt, "memory");
    one_tuple(rt, alloc, element, cell(1))
}

/// Five rows whose first cells are below 4, so that no tuple of `seeing` reaches 6.
const FIVE_ROWS: [u32; 10] = [1, 2, 3, 4, 0, 3, 2, 5, 3, 4];

/// Five preprocessed cells, none of which is 4, so that with the public value 2 no tuple is 6.
const FIVE_CELLS: [u32; 5] = [1, 3, 0, 2, 5];

/// Fails unless what is made of a range from the rows around it are the rows of the whole trace, once they are
/// shifted by its accumulator on the first of them, and the sum is the difference of the accumulators.
fn expect_part(
    rt: &impl Abort,
    alloc: Global,
    air: &BatchInstance<'_, F7>,
    challenges: &Challenges<F7>,
    whole: &RowMajorMatrix<F7>,
    terminal: &Option<LookupTerminal<F7>>,
    rows: RowRange,
) {
    let main = around(rt, alloc, air.main, rows);
    let preprocessed = preprocessed_around(rt, alloc, air, rows);
    let values = air.public_values;
    let part = one_air(air.lookups, &main, preprocessed.as_ref(), values);
    let made = made_around(rt, alloc, &part, challenges, rows);
    let (part, sum) = made.expect(rt, "no fault");
    let cells = whole.values();
    let (from, to) = (rows.first.saturating_mul(2), rows.end.saturating_mul(2));
    assert!(rt; from < to && to <= cells.len());
    let start = cells[from];
    let stop = match (cells.get(to), terminal) {
        (Some(next), _) => *next,
        (None, Some(LookupTerminal(last))) => *last,
        (None, None) => panic!(rt; "no terminal"),
    };
    holds(rt, "the sum", start + sum == stop);
    let moved = shift(part, start);
    holds(rt, "the cells", moved.values() == &cells[from..to]);
}

/// Up to which of the rows from `first` up to `end` the constraints hold where this cell of five rows is
/// changed; index 10 stands for the terminal, and 11 for nothing. A fraction fails on its row, and an
/// accumulator on the row before it and on its own.
fn wanted_until(changed: usize, first: usize, end: usize) -> usize {
    let (row, column) = (changed / 2, changed % 2);
    for r in first..end {
        if r == row || (column == 0 && r + 1 == row) {
            return r;
        }
    }
    end
}

/// The cells of an auxiliary trace of five rows, where this one is greater by one.
fn changed_at(
    rt: &impl Abort,
    alloc: Global,
    aux: &RowMajorMatrix<F7>,
    changed: usize,
) -> RowMajorMatrix<F7> {
    let mut values = Vec::new(alloc);
    for (index, value) in aux.values().iter().enumerate() {
        let more = F7::from_bool(index == changed);
        values.push(*value + more).expect(rt, "memory");
    }
    assert!(rt; values.len() == 10);
    RowMajorMatrix::new(values, 2)
}

/// Every range of the five rows of one AIR, from the rows around it: the rows that are made are those of the
/// whole trace, and where a cell is changed, the same row fails.
fn expect_parts(rt: &impl Abort, alloc: Global, airs: &[BatchInstance<'_, F7>]) {
    let challenges = table(rt, alloc, 4, 2, 1);
    let made = super::generate(rt, alloc, airs, &challenges).expect(rt, "no fault");
    assert!(rt; airs.len() == 1 && made.aux.len() == 1 && made.terminals.len() == 1);
    let (air, whole, last) = (&airs[0], &made.aux[0], &made.terminals[0]);
    for first in 0..5usize {
        for end in first + 1..6 {
            let rows = RowRange {
                first,
                end,
                height: 5,
            };
            expect_part(rt, alloc, air, &challenges, whole, last, rows);
            expect_checks(rt, alloc, air, &challenges, whole, last, rows);
        }
    }
}

/// Fails unless the checks of a range tell the failing row where a cell is changed, from the whole traces and
/// from the rows around it.
fn expect_checks(
    rt: &impl Abort,
    alloc: Global,
    air: &BatchInstance<'_, F7>,
    challenges: &Challenges<F7>,
    whole: &RowMajorMatrix<F7>,
    terminal: &Option<LookupTerminal<F7>>,
    rows: RowRange,
) {
    let main = around(rt, alloc, air.main, rows);
    let preprocessed = preprocessed_around(rt, alloc, air, rows);
    let values = air.public_values;
    let part = one_air(air.lookups, &main, preprocessed.as_ref(), values);
    for changed in 0..12usize {
        let aux = changed_at(rt, alloc, whole, changed);
        let more = F7::from_bool(changed == 10);
        let last = match terminal {
            Some(LookupTerminal(last)) => Some(LookupTerminal(*last + more)),
            None => None,
        };
        let wanted = wanted_until(changed, rows.first, rows.end);
        let in_whole = (rows.first, rows.end);
        let found = until(rt, alloc, air, challenges, &aux, &last, in_whole);
        holds(rt, "of the whole", found == wanted);
        let own = around(rt, alloc, &aux, rows);
        let found = until_around(rt, alloc, &part, challenges, &own, &last, rows);
        holds(rt, "of the rows around", found == wanted);
    }
}

/// At the prefix 6 no denominator is zero.
#[test]
fn each_range_from_the_rows_around_it(rt: HostRuntime) {
    let alloc = rt.alloc();
    let lookups = [seeing(&rt, alloc)];
    let main = trace(&rt, alloc, FIVE_ROWS.as_slice(), 2);
    let airs = [instance(lookups.as_slice(), &main, &[0])];
    expect_parts(&rt, alloc, airs.as_slice());
}

#[test]
fn each_range_with_a_preprocessed_trace(rt: HostRuntime) {
    let alloc = rt.alloc();
    let lookups = [seeing_fixed(&rt, alloc)];
    let main = trace(&rt, alloc, FIVE_ROWS.as_slice(), 2);
    let preprocessed = trace(&rt, alloc, FIVE_CELLS.as_slice(), 1);
    let values = [F7::from_u32(2)];
    let airs = [one_air(
        lookups.as_slice(),
        &main,
        Some(&preprocessed),
        values.as_slice(),
    )];
    expect_parts(&rt, alloc, airs.as_slice());
}

/// At the prefix 0 the denominator of row 1 is zero, whose next row has 0, and no other: on row 4 the next row
/// is row 0, which has 1. The fault is named by its row in the whole trace.
#[test]
fn the_fault_of_each_range_from_the_rows_around_it(rt: HostRuntime) {
    let alloc = rt.alloc();
    let lookups = [seeing(&rt, alloc)];
    let main = trace(&rt, alloc, FIVE_ROWS.as_slice(), 2);
    let challenges = table(&rt, alloc, 5, 2, 1);
    for first in 0..5usize {
        for end in first + 1..6 {
            let rows = RowRange {
                first,
                end,
                height: 5,
            };
            let part = around(&rt, alloc, &main, rows);
            let air = instance(lookups.as_slice(), &part, &[0]);
            let made = made_around(&rt, alloc, &air, &challenges, rows);
            let fault = LookupError::VanishingDenominator { row: 1, lookup: 0 };
            let wanted = if first <= 1 && 1 < end {
                Some(fault)
            } else {
                None
            };
            holds(&rt, "the fault", made.err() == wanted);
        }
    }
}
