//! Generation in chunks of 1024 rows: what stands where chunks meet, and how many inverses are counted.
ghost use Rattle.std.specs.Prelude.{◌*◌, ◌≤◌, None, length};
ghost use Rattle.air_expressions.specs.Layout.{layout_of_traces};
ghost use Rattle.lookup_model.specs.Records.{LookupsFit};

use super::comparison::ranges;
use super::{Made, are_numbers, are_zero, holds, local, range, trace};
use air::{AirLayout, Traces};
use field::{ExtensionDomain, F7, Field, InverseCount, Inverter, PrimeCharacteristicRing};
use field_monty::{BabyBear, BabyBear4};
use lookup::{LogUpGadget, Lookup, LookupError, LookupTerminal, fits};
use matrix::RowMajorMatrix;
use std::alloc::Global;
use std::process::Abort;

/// What generation makes of lookups over a main trace, by an inverter.
pub(super) fn generate_counted<F: Field, EF: ExtensionDomain<F>, I: Inverter<EF>>(
    rt: &impl Abort,
    alloc: Global,
    main: &RowMajorMatrix<F>,
    lookups: &[Lookup<F>],
    challenges: &[EF],
    inverter: &mut I,
) -> Result<Made<EF>, LookupError> {
    let no_values: Vec<F> = Vec::new(alloc);
    let values = no_values.as_slice();
    let layout = AirLayout::of_traces(main, None, values);
    assert!(rt; fits(lookups, &layout));
    assert!(rt; lookups.len() <= challenges.len() / 2);
    match over_values(alloc, main, values, lookups, challenges, inverter) {
        Ok((auxiliary, terminal)) => Ok(Made::new(auxiliary, terminal)),
        Err(fault) => Err(fault),
    }
}

/// The auxiliary trace and the terminal over a main trace and public values.
fn over_values<'a, F: Field, EF: ExtensionDomain<F>, I: Inverter<EF>>(
    alloc: Global,
    main: &'a RowMajorMatrix<F>,
    public_values: &'a [F],
    lookups: &[Lookup<F>],
    challenges: &[EF],
    inverter: &mut I,
) -> Result<(RowMajorMatrix<EF>, Option<LookupTerminal<EF>>), LookupError>
    requires fit { LookupsFit (layout_of_traces main.now None public_values.now) lookups.now }
    requires challenges { 2 * length lookups.now ≤ length challenges.now }
{
    let traces = Traces {
        main,
        preprocessed: None,
        public_values,
    };
    LogUpGadget::new().generate_counted(alloc, &traces, lookups, challenges, inverter)
}

/// The same over F7, with how many inverses are counted.
fn with_count(
    rt: &impl Abort,
    alloc: Global,
    main: &RowMajorMatrix<F7>,
    lookups: &[Lookup<F7>],
    challenges: &[F7],
) -> (Result<Made<F7>, LookupError>, u64) {
    let mut count = InverseCount::new();
    let made = generate_counted(rt, alloc, main, lookups, challenges, &mut count);
    (made, count.get())
}

/// A main trace of as many copies of a row, but for one row.
fn copies(
    rt: &impl Abort,
    alloc: Global,
    height: usize,
    row: [u32; 3],
    other: usize,
    other_row: [u32; 3],
) -> RowMajorMatrix<F7> {
    let mut numbers = Vec::new(alloc);
    for index in 0..height {
        let row = if index == other { other_row } else { row };
        for number in row {
            numbers.push(number).expect(rt, "memory");
        }
    }
    trace(rt, alloc, numbers.as_slice(), 3)
}

/// Generation over as many rows of range lookups makes the plain program's trace, with this count. The
/// elements are below 6, so that no denominator vanishes at the prefix 6. On the rows 0, 1024 and 2048,
/// which may be alone in their chunk, the denominators are 5, then 1 and 4, then 3 and 1, so that
/// something is left to invert.
fn expect_plain(rt: &impl Abort, alloc: Global, height: u32, wanted: u64) {
    let challenges = [F7::new(6), F7::new(2)];
    let lookups = [range(rt, alloc, 0)];
    let mut rows = Vec::new(alloc);
    for index in 0..height {
        let row = [(index + 1) % 6, index / 6 % 6, index % 7];
        rows.push(row).expect(rt, "memory");
    }
    let ranges = ranges(rt, alloc, rows.as_slice(), &challenges);
    let (made, count) = with_count(rt, alloc, &ranges.main, lookups.as_slice(), &challenges);
    holds(rt, "no fault", made.is_ok());
    ranges.expected.compare(rt, made, ranges.terminal);
    holds(rt, "the count", count == wanted);
}

#[test]
fn heights_around_whole_chunks(rt: HostRuntime) {
    for (height, wanted) in [
        (1, 1),
        (1023, 1),
        (1024, 1),
        (1025, 2),
        (2047, 2),
        (2048, 2),
        (2049, 3),
    ] {
        expect_plain(&rt, rt.alloc(), height, wanted);
    }
}

/// Fails unless 1025 such rows have these cells in the last row, this terminal and this count.
fn expect_end(
    rt: &impl Abort,
    alloc: Global,
    lookups: &[Lookup<F7>],
    last: &[u32],
    terminal: u32,
    wanted: u64,
) {
    let main = copies(rt, alloc, 1025, [3, 4, 0], 0, [3, 4, 0]);
    let challenges = [F7::new(0), F7::new(2), F7::new(1), F7::new(2)];
    let (made, count) = with_count(rt, alloc, &main, lookups, &challenges);
    let made = made.expect(rt, "no fault");
    let cells = made.auxiliary.values();
    assert!(rt; last.len() <= cells.len());
    let start = cells.len() - last.len();
    holds(rt, "the rows", start == last.len().saturating_mul(1024));
    holds(rt, "the last row", are_numbers(&cells[start..], last));
    let is_right = made.terminal == Some(F7::new(terminal)) && count == wanted;
    holds(rt, "the terminal and the count", is_right);
}

/// Each of 1025 rows reads 3, and provides 4 no time.
///
/// - At the prefix 0 it adds 1 / (0 - 3) = 1 / 4 = 2. The accumulator of row 1024 is 1024 * 2 = 2048 = 4,
///   and the sum of all rows is 1025 * 2 = 2050 = 6.
/// - A lookup in column 1 is at the prefix 1, and adds 1 / (1 - 3) = 1 / 5 = 3. With the 2 of column 0
///   the accumulator of row 1024 is 1024 * 5 = 5120 = 3, and the sum of all rows is 1025 * 5 = 5125 = 1.
#[test]
fn a_chunk_goes_on_where_the_one_before_ends(rt: HostRuntime) {
    let alloc = rt.alloc();
    let one = [range(&rt, alloc, 0)];
    expect_end(&rt, alloc, one.as_slice(), &[4, 2], 6, 2);
    let two = [range(&rt, alloc, 0), range(&rt, alloc, 1)];
    expect_end(&rt, alloc, two.as_slice(), &[3, 2, 3], 1, 2);
}

/// Over 1025 rows each cell of a lookup without tuples is zero.
#[test]
fn no_tuples_in_two_chunks(rt: HostRuntime) {
    let alloc = rt.alloc();
    let lookups = [local(Vec::new(alloc), Vec::new(alloc), 0)];
    let main = copies(&rt, alloc, 1025, [3, 4, 0], 0, [3, 4, 0]);
    let challenges = [F7::new(0), F7::new(2)];
    let (made, count) = with_count(&rt, alloc, &main, lookups.as_slice(), &challenges);
    let made = made.expect(&rt, "no fault");
    let cells = made.auxiliary.values();
    holds(&rt, "two cells a row", cells.len() == 2050);
    holds(&rt, "the cells", are_zero(cells));
    let is_right = made.terminal == Some(F7::new(0)) && count == 0;
    holds(&rt, "the terminal and the count", is_right);
}

/// At the prefix 3 the read tuple 4 has the denominator 3 - 4 = 6, and the read tuple 3 has 0. The tuple 3
/// that is provided has the multiplicity 0, and is not looked at. The first chunk alone is inverted.
#[test]
fn a_fault_in_the_second_chunk(rt: HostRuntime) {
    let alloc = rt.alloc();
    let main = copies(&rt, alloc, 1200, [4, 3, 0], 1030, [3, 4, 0]);
    let lookups = [range(&rt, alloc, 0)];
    let challenges = [F7::new(3), F7::new(2)];
    let (made, count) = with_count(&rt, alloc, &main, lookups.as_slice(), &challenges);
    let fault = LookupError::VanishingDenominator {
        row: 1030,
        lookup: 0,
    };
    holds(&rt, "the fault", made.err() == Some(fault));
    holds(&rt, "the count", count == 1);
}

/// Over the quartic extension the row `0 1 0` adds 1 / X = X^3 / 11.
#[test]
fn an_extension_counts_as_well(rt: HostRuntime) {
    let alloc = rt.alloc();
    let main = trace::<BabyBear>(&rt, alloc, &[0, 1, 0], 3);
    let lookups = [range(&rt, alloc, 0)];
    let x = BabyBear4::new([0, 1, 0, 0].map(BabyBear::new));
    let challenges = [x, BabyBear4::ZERO];
    let mut count = InverseCount::new();
    let made = generate_counted(
        &rt,
        alloc,
        &main,
        lookups.as_slice(),
        &challenges,
        &mut count,
    );
    let inverse = BabyBear4::new([0, 0, 0, 549072524].map(BabyBear::new));
    let made = made.expect(&rt, "no fault");
    holds(&rt, "the terminal", made.terminal == Some(inverse));
    holds(&rt, "one inverse", count.get() == 1);
}
