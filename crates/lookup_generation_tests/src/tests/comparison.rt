//! Generated traces against those of the plain program.
ghost use Rattle.std.specs.Prelude.{◌+◌, ◌*◌, ◌<◌, ◌↔◌, All, IsTrue};

use super::{Made, alone, generate, group, holds, list, range, trace};
use crate::plain::{self, PlainMessage};
use field::{F2, F7, Field};
use lookup::{Lookup, LookupError};
use matrix::RowMajorMatrix;
use std::alloc::Global;
use std::process::Abort;

/// What the plain program says of the rows so far.
#[derive(Drop)]
pub(super) struct Expected<F> {
    cells: Vec<F>,
    sum: F,
    fault: Option<LookupError>,
    sent: Vec<PlainMessage<F>>,
}

impl<F: Field> Expected<F> {
    /// Of no rows.
    fn new(alloc: Global) -> Self {
        Expected {
            cells: Vec::new(alloc),
            sum: F::ZERO,
            fault: None,
            sent: Vec::new(alloc),
        }
    }

    /// One more row: its fraction, or its fault.
    fn push(&mut self, rt: &impl Abort, row: Result<F, LookupError>) {
        self.cells.push(self.sum).expect(rt, "memory");
        match row {
            Ok(fraction) => {
                self.cells.push(fraction).expect(rt, "memory");
                self.sum = self.sum + fraction;
            }
            Err(fault) => {
                if self.fault.is_none() {
                    self.fault = Some(fault);
                }
            }
        }
    }

    /// Fails unless generation makes the same of these rows, whose plain terminal is this one.
    pub(super) fn compare(
        &self,
        rt: &impl Abort,
        made: Result<Made<F>, LookupError>,
        terminal: Option<F>,
    ) {
        match made {
            Ok(made) => {
                holds(rt, "no fault", self.fault.is_none());
                holds(
                    rt,
                    "the cells",
                    made.auxiliary.values() == self.cells.as_slice(),
                );
                holds(rt, "a plain terminal", terminal.is_some());
                holds(rt, "the terminal", made.terminal == terminal);
            }
            Err(fault) => holds(rt, "the fault", self.fault == Some(fault)),
        }
    }
}

/// A message of one element on the one bus.
fn message<F: Field>(
    rt: &impl Abort,
    alloc: Global,
    number: u32,
    multiplicity: F,
) -> PlainMessage<F> {
    PlainMessage {
        id: 0,
        tuple: alone(rt, alloc, F::from_u32(number)),
        multiplicity,
    }
}

/// Whether there are challenges for the id of each message, where there are so many.
fn have_challenges<F>(messages: &[PlainMessage<F>], challenges: usize) -> bool
    ensures { IsTrue result ↔ All (λ m. 2 * m.id + 1 < challenges) messages.now }
{
    messages.iter().all(|message| message.id < challenges / 2)
}

/// The plain answer to the messages of an additive lookup on this row: its fraction, or its fault.
fn additive_answer(
    rt: &impl Abort,
    row: usize,
    messages: &[PlainMessage<F7>],
    challenges: &[F7],
) -> Result<F7, LookupError> {
    assert!(rt; have_challenges(messages, challenges.len()));
    match plain::fraction_of::<F7, F7>(messages, challenges) {
        Some(fraction) => Ok(fraction),
        None => Err(LookupError::VanishingDenominator { row, lookup: 0 }),
    }
}

/// The plain terminal of the messages of range lookups.
fn additive_terminal(rt: &impl Abort, sent: &[PlainMessage<F7>], challenges: &[F7]) -> Option<F7> {
    assert!(rt; have_challenges(sent, challenges.len()));
    plain::terminal_of::<F7, F7>(sent, challenges)
}

/// One more row of the range lookup.
fn push_range_row(
    rt: &impl Abort,
    alloc: Global,
    expected: &mut Expected<F7>,
    index: usize,
    row: [u32; 3],
    challenges: &[F7],
) {
    let read = message(rt, alloc, row[0], F7::new(1));
    let provided = message(rt, alloc, row[1], -F7::new(row[2]));
    let messages = list(rt, alloc, [read, provided]);
    expected.push(
        rt,
        additive_answer(rt, index, messages.as_slice(), challenges),
    );
    for message in messages {
        expected.sent.push(message).expect(rt, "memory");
    }
}

/// A main trace of rows of the range lookup, and what the plain program makes of it.
#[derive(Drop)]
pub(super) struct RangeRows {
    pub(super) main: RowMajorMatrix<F7>,
    pub(super) expected: Expected<F7>,
    pub(super) terminal: Option<F7>,
}

/// The trace of these rows.
pub(super) fn ranges(
    rt: &impl Abort,
    alloc: Global,
    rows: &[[u32; 3]],
    challenges: &[F7],
) -> RangeRows {
    let mut numbers = Vec::new(alloc);
    let mut expected = Expected::new(alloc);
    for (index, row) in rows.iter().enumerate() {
        for number in *row {
            numbers.push(number).expect(rt, "memory");
        }
        push_range_row(rt, alloc, &mut expected, index, *row, challenges);
    }
    let terminal = additive_terminal(rt, expected.sent.as_slice(), challenges);
    RangeRows {
        main: trace(rt, alloc, numbers.as_slice(), 3),
        expected,
        terminal,
    }
}

/// Compares generation with the plain program on these rows of the range lookup.
fn compare_ranges(
    rt: &impl Abort,
    alloc: Global,
    lookups: &[Lookup<F7>],
    rows: &[[u32; 3]],
    challenges: &[F7],
) {
    let ranges = ranges(rt, alloc, rows, challenges);
    let made = generate(rt, alloc, &ranges.main, lookups, challenges);
    ranges.expected.compare(rt, made, ranges.terminal);
}

/// The row of this code, which is below 343.
fn range_row(code: u32) -> [u32; 3] {
    [code / 49, code / 7 % 7, code % 7]
}

/// Compares both on every row, at every beta and the alphas from `first` to before `end`.
fn compare_rows(rt: &impl Abort, alloc: Global, first: u32, end: u32) {
    let lookups = [range(rt, alloc, 0)];
    for alpha in first..end {
        for beta in 0..7 {
            for code in 0..343 {
                let challenges = [F7::new(alpha), F7::new(beta)];
                let rows = [range_row(code)];
                compare_ranges(rt, alloc, lookups.as_slice(), &rows, &challenges);
            }
        }
    }
}

#[test]
fn one_row_at_alphas_below_three(rt: HostRuntime) {
    compare_rows(&rt, rt.alloc(), 0, 3);
}

#[test]
fn one_row_at_alphas_from_three(rt: HostRuntime) {
    compare_rows(&rt, rt.alloc(), 3, 7);
}

/// The row of this code, which is below 98: its multiplicity is 0 or 1.
fn row_of_one(code: u32) -> [u32; 3] {
    [code / 14, code / 2 % 7, code % 2]
}

/// Compares both on every pair of rows of which the first has a code from `first` to before `end`.
fn compare_pairs(rt: &impl Abort, alloc: Global, first: u32, end: u32) {
    let lookups = [range(rt, alloc, 0)];
    let challenges = [F7::new(0), F7::new(2)];
    for one in first..end {
        for other in 0..98 {
            let rows = [row_of_one(one), row_of_one(other)];
            compare_ranges(rt, alloc, lookups.as_slice(), &rows, &challenges);
        }
    }
}

#[test]
fn two_rows_whose_first_has_a_low_code(rt: HostRuntime) {
    compare_pairs(&rt, rt.alloc(), 0, 49);
}

#[test]
fn two_rows_whose_first_has_a_high_code(rt: HostRuntime) {
    compare_pairs(&rt, rt.alloc(), 49, 98);
}

/// The flags of a row, and the messages of its branches.
fn branches_of(rt: &impl Abort, alloc: Global, row: &[u32]) -> (Vec<F2>, Vec<PlainMessage<F2>>) {
    let mut flags = Vec::new(alloc);
    let mut messages = Vec::new(alloc);
    for branch in 0..row.len() / 2 {
        flags.push(F2::new(row[2 * branch])).expect(rt, "memory");
        let sent = message(rt, alloc, row[2 * branch + 1], F2::new(1));
        messages.push(sent).expect(rt, "memory");
    }
    (flags, messages)
}

/// The plain answer to an exclusive lookup on this row: its fraction, or its fault.
fn exclusive_answer(
    rt: &impl Abort,
    alloc: Global,
    row: usize,
    flags: &[F2],
    messages: &[PlainMessage<F2>],
    challenges: &[F2],
) -> Result<F2, LookupError> {
    assert!(rt; messages.len() == flags.len());
    assert!(rt; have_challenges(messages, challenges.len()));
    plain::exclusive_fraction_of::<F2, F2>(alloc, row, 0, flags, messages, challenges)
}

/// The plain terminal of the messages that exclusive lookups send.
fn exclusive_terminal(rt: &impl Abort, sent: &[PlainMessage<F2>], challenges: &[F2]) -> Option<F2> {
    assert!(rt; have_challenges(sent, challenges.len()));
    plain::terminal_of::<F2, F2>(sent, challenges)
}

/// One more row of the exclusive lookup.
fn push_exclusive_row(
    rt: &impl Abort,
    alloc: Global,
    expected: &mut Expected<F2>,
    index: usize,
    row: &[u32],
    challenges: &[F2],
) {
    let (flags, messages) = branches_of(rt, alloc, row);
    let (own_flags, own_messages) = (flags.as_slice(), messages.as_slice());
    let answer = exclusive_answer(rt, alloc, index, own_flags, own_messages, challenges);
    expected.push(rt, answer);
    for (flag, message) in flags.into_iter().zip(messages) {
        if flag == F2::new(1) {
            expected.sent.push(message).expect(rt, "memory");
        }
    }
}

/// Compares generation with the plain program on the rows of these numbers, of as many branches.
fn compare_groups(
    rt: &impl Abort,
    alloc: Global,
    branches: u8,
    numbers: &[u32],
    challenges: &[F2],
) {
    let width = 2 * usize::from(branches);
    assert!(rt; width > 0);
    let mut expected = Expected::new(alloc);
    for (index, row) in numbers.chunks(width).enumerate() {
        push_exclusive_row(rt, alloc, &mut expected, index, row, challenges);
    }
    let main = trace::<F2>(rt, alloc, numbers, width);
    let lookups = [group(rt, alloc, branches, 0)];
    let made = generate(rt, alloc, &main, lookups.as_slice(), challenges);
    let terminal = exclusive_terminal(rt, expected.sent.as_slice(), challenges);
    expected.compare(rt, made, terminal);
}

/// The lowest binary digits of a code.
fn digits(rt: &impl Abort, alloc: Global, code: u32, count: usize) -> Vec<u32> {
    let mut rest = code;
    let mut digits = Vec::new(alloc);
    for _ in 0..count {
        digits.push(rest % 2).expect(rt, "memory");
        rest = rest / 2;
    }
    digits
}

/// Compares both on every trace over F2 of as many cells, at every pair of challenges.
fn compare_all(rt: &impl Abort, alloc: Global, branches: u8, cells: usize) {
    let mut traces = 1u32;
    for _ in 0..cells {
        traces = traces.saturating_mul(2);
    }
    for code in 0..traces {
        let numbers = digits(rt, alloc, code, cells);
        for alpha in 0..2 {
            for beta in 0..2 {
                let challenges = [F2::new(alpha), F2::new(beta)];
                compare_groups(
                    rt,
                    alloc,
                    branches,
                    numbers.as_slice(),
                    challenges.as_slice(),
                );
            }
        }
    }
}

#[test]
fn two_branches_against_the_plain_program(rt: HostRuntime) {
    for cells in [4, 8] {
        compare_all(&rt, rt.alloc(), 2, cells);
    }
}

#[test]
fn one_branch_against_the_plain_program(rt: HostRuntime) {
    for cells in [2, 4, 6, 8, 10] {
        compare_all(&rt, rt.alloc(), 1, cells);
    }
}
