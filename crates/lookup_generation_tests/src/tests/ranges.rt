//! Ranges of rows, generated apart: their cells, their sums, and the fault that is named.
use super::{Made, are_numbers, generate, holds, range, trace};
use air::{AirLayout, Traces};
use field::{F7, InverseCount, PrimeCharacteristicRing};
use lookup::{Lookup, LookupError, LookupTerminal, fits};
use lookup_generation::{generate_in_ranges, generate_rows, ranges_join, shift};
use matrix::RowMajorMatrix;
use std::alloc::Global;
use std::process::Abort;

/// What is generated from.
#[derive(Clone, Copy)]
struct Inputs<'a> {
    main: &'a RowMajorMatrix<F7>,
    lookups: &'a [Lookup<F7>],
    challenges: &'a [F7],
}

/// The rows from `first` up to `end`, their sum, and how many inverses are counted.
fn rows_of(
    rt: &impl Abort,
    alloc: Global,
    inputs: Inputs<'_>,
    first: usize,
    end: usize,
) -> (Result<(RowMajorMatrix<F7>, F7), LookupError>, u64) {
    let Inputs {
        main,
        lookups,
        challenges,
    } = inputs;
    let traces = Traces {
        main,
        preprocessed: None,
        public_values: &[],
    };
    let layout = AirLayout::of_traces(main, None, &[]);
    assert!(rt; fits(lookups, &layout) && lookups.len() <= challenges.len() / 2);
    assert!(rt; first <= end && end <= main.height());
    let mut count = InverseCount::new();
    let made = generate_rows(alloc, &traces, lookups, challenges, first, end, &mut count);
    (made, count.get())
}

/// The rows `3 4 1` and `4 3 1` at the prefix 0 and beta 2: the whole trace has the rows `0 4` and `4 3`, and
/// the terminal 0. So row 0 alone sums to 4, and row 1 to 3; each starts at 0, and row 1 comes to its place by
/// a shift of 4.
#[test]
fn each_row_of_two_alone(rt: HostRuntime) {
    let alloc = rt.alloc();
    let main = trace(&rt, alloc, &[3, 4, 1, 4, 3, 1], 3);
    let lookups = [range(&rt, alloc, 0)];
    let challenges = [F7::new(0), F7::new(2)];
    let whole = generate(&rt, alloc, &main, lookups.as_slice(), &challenges).expect(
        &rt, "no fault",
    );
    holds(
        &rt,
        "whole",
        are_numbers(whole.auxiliary.values(), &[0, 4, 4, 3]),
    );
    let inputs = Inputs {
        main: &main,
        lookups: lookups.as_slice(),
        challenges: &challenges,
    };
    for (row, cells, sum) in [(0usize, [0u32, 4], 4u32), (1, [0, 3], 3)] {
        let (made, count) = rows_of(&rt, alloc, inputs, row, row + 1);
        let (rows, made_sum) = made.expect(&rt, "no fault");
        holds(
            &rt,
            "the cells",
            are_numbers(rows.values(), cells.as_slice()),
        );
        holds(&rt, "the sum", made_sum == F7::new(sum) && count == 1);
    }
    let moved = shift(trace(&rt, alloc, &[0, 3], 2), F7::new(4));
    holds(
        &rt,
        "shifted",
        are_numbers(moved.values(), &[4, 3]) && moved.width() == 2,
    );
}

/// Fails unless the rows from `first` up to `end` are those of the whole trace once they are shifted by its
/// accumulator on row `first`, and sum to the difference of the accumulators.
fn expect_part(
    rt: &impl Abort,
    alloc: Global,
    inputs: Inputs<'_>,
    whole: &Made<F7>,
    first: usize,
    end: usize,
) {
    let (made, count) = rows_of(rt, alloc, inputs, first, end);
    let (rows, sum) = made.expect(rt, "no fault");
    let cells = whole.auxiliary.values();
    let width = inputs.lookups.len().saturating_add(1);
    let (from, to) = (first.saturating_mul(width), end.saturating_mul(width));
    let last = whole.terminal.expect(rt, "a terminal");
    assert!(rt; from <= to && to <= cells.len());
    let start = if from < cells.len() {
        cells[from]
    } else {
        last
    };
    let stop = if to < cells.len() { cells[to] } else { last };
    holds(rt, "the sum", start + sum == stop);
    let moved = shift(rows, start);
    holds(rt, "the cells", moved.values() == &cells[from..to]);
    let chunks = (end - first).div_ceil(1024);
    holds(rt, "the count", usize::try_from(count) == Ok(chunks));
}

/// Four rows of `range`. No denominator is zero at the prefixes 6 and 5, since all elements are below 5.
const FOUR_ROWS: [u32; 12] = [3, 4, 1, 4, 3, 1, 0, 2, 5, 1, 1, 6];

/// Every range of four rows, with one lookup and with two.
#[test]
fn each_range_of_four_rows(rt: HostRuntime) {
    let alloc = rt.alloc();
    let main = trace(&rt, alloc, FOUR_ROWS.as_slice(), 3);
    let two = [range(&rt, alloc, 0), range(&rt, alloc, 1)];
    let challenges = [F7::new(6), F7::new(2), F7::new(5), F7::new(2)];
    for count in 1..3usize {
        let lookups = &two[..count];
        let whole = generate(&rt, alloc, &main, lookups, &challenges).expect(&rt, "no fault");
        let inputs = Inputs {
            main: &main,
            lookups,
            challenges: &challenges,
        };
        for first in 0..5usize {
            for end in first..5 {
                expect_part(&rt, alloc, inputs, &whole, first, end);
            }
        }
    }
}

/// Ranges of 2100 rows that begin and end within chunks.
#[test]
fn ranges_that_cut_chunks(rt: HostRuntime) {
    let alloc = rt.alloc();
    let mut numbers = Vec::new(alloc);
    for index in 0..2100u32 {
        for number in [index % 6, index / 6 % 6, index % 7] {
            numbers.push(number).expect(&rt, "memory");
        }
    }
    let main = trace(&rt, alloc, numbers.as_slice(), 3);
    let lookups = [range(&rt, alloc, 0)];
    let challenges = [F7::new(6), F7::new(2)];
    let whole = generate(&rt, alloc, &main, lookups.as_slice(), &challenges).expect(
        &rt, "no fault",
    );
    let inputs = Inputs {
        main: &main,
        lookups: lookups.as_slice(),
        challenges: &challenges,
    };
    for (first, end) in [
        (0usize, 1usize),
        (1, 1025),
        (1, 1026),
        (1000, 2100),
        (2099, 2100),
    ] {
        expect_part(&rt, alloc, inputs, &whole, first, end);
    }
}

/// Five rows of `range`. At the prefix 3 the read tuple 3 of rows 1 and 3 has the denominator zero, and no
/// other row has a fault.
const TWO_FAULTS: [u32; 15] = [4, 4, 1, 3, 4, 1, 4, 4, 1, 3, 4, 1, 4, 4, 1];

/// A range is refused for its first row of those with a fault, and nothing is inverted.
#[test]
fn the_first_fault_of_a_range(rt: HostRuntime) {
    let alloc = rt.alloc();
    let main = trace(&rt, alloc, TWO_FAULTS.as_slice(), 3);
    let lookups = [range(&rt, alloc, 0)];
    let challenges = [F7::new(3), F7::new(2)];
    let inputs = Inputs {
        main: &main,
        lookups: lookups.as_slice(),
        challenges: &challenges,
    };
    for (first, end, wanted) in [
        (0usize, 1usize, None),
        (0, 2, Some(1usize)),
        (0, 5, Some(1)),
        (1, 5, Some(1)),
        (2, 3, None),
        (2, 5, Some(3)),
        (4, 5, None),
        (4, 4, None),
    ] {
        let (made, count) = rows_of(&rt, alloc, inputs, first, end);
        let fault = wanted.map(|row| LookupError::VanishingDenominator { row, lookup: 0 });
        holds(&rt, "nothing inverted", fault.is_none() || count == 0);
        holds(&rt, "the fault", made.err() == fault);
    }
}

/// Without lookups a range has no cells, and sums to zero.
#[test]
fn a_range_without_lookups(rt: HostRuntime) {
    let alloc = rt.alloc();
    let main = trace(&rt, alloc, &[3, 4, 1, 4, 3, 1], 3);
    let inputs = Inputs {
        main: &main,
        lookups: &[],
        challenges: &[],
    };
    let (made, count) = rows_of(&rt, alloc, inputs, 1, 2);
    let (rows, sum) = made.expect(&rt, "no fault");
    holds(
        &rt,
        "no cells",
        rows.values().is_empty() && rows.width() == 0,
    );
    holds(&rt, "no sum", sum == F7::ZERO && count == 0);
}

/// The two rows from one range, from two, and with empty ranges between.
#[test]
fn two_rows_from_ranges(rt: HostRuntime) {
    ranges_join::<F7, F7>();
    let alloc = rt.alloc();
    let main = trace(&rt, alloc, &[3, 4, 1, 4, 3, 1], 3);
    let lookups = [range(&rt, alloc, 0)];
    let lookups = lookups.as_slice();
    let challenges = [F7::new(0), F7::new(2)];
    let traces = Traces {
        main: &main,
        preprocessed: None,
        public_values: &[],
    };
    let layout = AirLayout::of_traces(&main, None, &[]);
    assert!(rt; fits(lookups, &layout) && main.height() == 2);
    let one = generate_in_ranges(alloc, &traces, lookups, &challenges, &[2]);
    let two = generate_in_ranges(alloc, &traces, lookups, &challenges, &[1, 2]);
    let four = generate_in_ranges(alloc, &traces, lookups, &challenges, &[0, 1, 1, 2]);
    for made in [one, two, four] {
        let (rows, terminal) = made.expect(&rt, "no fault");
        holds(&rt, "the cells", are_numbers(rows.values(), &[0, 4, 4, 3]));
        holds(
            &rt,
            "the terminal",
            terminal.is_some_and(|t| t.0 == F7::ZERO),
        );
    }
}

/// What is made of four ranges with these ends.
fn made_in_ranges(
    rt: &impl Abort,
    alloc: Global,
    inputs: Inputs<'_>,
    [first, second, third, last]: [usize; 4],
) -> Result<Made<F7>, LookupError> {
    let Inputs {
        main,
        lookups,
        challenges,
    } = inputs;
    let traces = Traces {
        main,
        preprocessed: None,
        public_values: &[],
    };
    let layout = AirLayout::of_traces(main, None, &[]);
    assert!(rt; fits(lookups, &layout) && lookups.len() <= challenges.len() / 2);
    assert!(rt; first <= second && second <= third && third <= last);
    assert!(rt; last == main.height());
    let ends = [first, second, third, last];
    let (auxiliary, terminal) = generate_in_ranges(
        alloc,
        &traces,
        lookups,
        challenges,
        ends.as_slice(),
    )?;
    Ok(Made::new(auxiliary, terminal))
}

/// Whether the same is made, or refused.
fn are_same(made: &Result<Made<F7>, LookupError>, wanted: &Result<Made<F7>, LookupError>) -> bool {
    match (made, wanted) {
        (Ok(made), Ok(wanted)) => {
            made.auxiliary.values() == wanted.auxiliary.values()
                && made.auxiliary.width() == wanted.auxiliary.width()
                && made.terminal == wanted.terminal
        }
        (Err(made), Err(wanted)) => made == wanted,
        _ => false,
    }
}

/// Fails unless this is made of every four ranges of the rows. Some of them are empty, so the trace is cut at
/// every row, at none, and at all together.
fn expect_in_ranges(
    rt: &impl Abort,
    alloc: Global,
    inputs: Inputs<'_>,
    last: usize,
    wanted: &Result<Made<F7>, LookupError>,
) {
    assert!(rt; last < 10);
    for third in 0..last + 1 {
        for second in 0..third + 1 {
            for first in 0..second + 1 {
                let made = made_in_ranges(rt, alloc, inputs, [first, second, third, last]);
                holds(rt, "the same", are_same(&made, wanted));
            }
        }
    }
}

#[test]
fn four_rows_from_ranges(rt: HostRuntime) {
    let alloc = rt.alloc();
    let main = trace(&rt, alloc, FOUR_ROWS.as_slice(), 3);
    let two = [range(&rt, alloc, 0), range(&rt, alloc, 1)];
    let challenges = [F7::new(6), F7::new(2), F7::new(5), F7::new(2)];
    for count in 0..3usize {
        let lookups = &two[..count];
        let whole = generate(&rt, alloc, &main, lookups, &challenges);
        holds(&rt, "no fault", whole.is_ok());
        let inputs = Inputs {
            main: &main,
            lookups,
            challenges: &challenges,
        };
        expect_in_ranges(&rt, alloc, inputs, 4, &whole);
    }
}

/// However the five rows are cut, the fault of row 1 comes before that of row 3.
#[test]
fn the_first_fault_from_ranges(rt: HostRuntime) {
    let alloc = rt.alloc();
    let main = trace(&rt, alloc, TWO_FAULTS.as_slice(), 3);
    let lookups = [range(&rt, alloc, 0)];
    let challenges = [F7::new(3), F7::new(2)];
    let inputs = Inputs {
        main: &main,
        lookups: lookups.as_slice(),
        challenges: &challenges,
    };
    let fault = LookupError::VanishingDenominator { row: 1, lookup: 0 };
    expect_in_ranges(&rt, alloc, inputs, 5, &Err(fault));
}

/// Without rows no range is needed: there are no cells, and the terminal is 0.
#[test]
fn no_rows_from_ranges(rt: HostRuntime) {
    let alloc = rt.alloc();
    let main = trace(&rt, alloc, &[], 3);
    let lookups = [range(&rt, alloc, 0)];
    let lookups = lookups.as_slice();
    let challenges = [F7::new(6), F7::new(2)];
    let traces = Traces {
        main: &main,
        preprocessed: None,
        public_values: &[],
    };
    let layout = AirLayout::of_traces(&main, None, &[]);
    assert!(rt; fits(lookups, &layout) && main.height() == 0);
    let made = generate_in_ranges(alloc, &traces, lookups, &challenges, &[]);
    let (rows, terminal) = made.expect(&rt, "no fault");
    holds(
        &rt,
        "no cells",
        rows.values().is_empty() && rows.width() == 2,
    );
    holds(
        &rt,
        "the terminal",
        terminal.is_some_and(|t| t.0 == F7::ZERO),
    );
}
