//! Memories that `example_memory` accepts, and those that are refused, one for each refusal.

use batch::BatchError;
use example_memory::{MemoryTraces, check_memory, memory_plan};
use field::PrimeCharacteristicRing;
use field_monty::{BabyBear, BabyBear4};
use lookup::LookupError;
use matrix::RowMajorMatrix;
use std::alloc::Global;
use std::process::Abort;

/// Rows of five: address 1 is written at time 1 and read at 3, address 2 is read at 2 and written
/// at 7. The gaps are 0, 1, 1 and 4.
const ACCESSES: [u32; 20] = [1, 5, 0, 6, 1, 2, 9, 0, 9, 2, 1, 6, 1, 6, 3, 2, 9, 2, 8, 7];

/// Rows of four: address 1 holds 5 at first and 6 at last, address 2 holds 9 and then 8.
const BOUNDARY: [u32; 8] = [1, 5, 6, 3, 2, 9, 8, 7];

/// Rows of two: the gaps from 0 to 4.
const GAPS: [u32; 10] = [0, 1, 1, 2, 2, 0, 3, 0, 4, 1];

/// No denominator vanishes here: `100000 + 1000^3` and `100000 + 2 * 1000^3` are below the
/// characteristic, and no message of small numbers combines to one of them.
const CHALLENGES: (u32, u32) = (100000, 1000);

/// A matrix of these numbers, row after row, in which these indices hold another number.
fn trace(
    rt: &impl Abort,
    alloc: Global,
    numbers: &[u32],
    width: usize,
    changes: &[(usize, u32)],
) -> RowMajorMatrix<BabyBear> {
    let mut values = Vec::new(alloc);
    for number in numbers {
        values
            .push(BabyBear::from_u32(*number))
            .expect(rt, "memory");
    }
    for (index, number) in changes {
        assert!(rt; *index < values.len());
        values[*index] = BabyBear::from_u32(*number);
    }
    assert!(rt; width > 0 && values.len() % width == 0);
    RowMajorMatrix::new(values, width)
}

/// The answer for these traces, over a plan of their heights.
fn checked(
    rt: &impl Abort,
    alloc: Global,
    accesses: RowMajorMatrix<BabyBear>,
    boundary: RowMajorMatrix<BabyBear>,
    gaps: RowMajorMatrix<BabyBear>,
    challenges: (u32, u32),
) -> Result<(), BatchError> {
    let heights = (accesses.height(), boundary.height(), gaps.height());
    let plan = memory_plan::<BabyBear, BabyBear4>(alloc, heights.0, heights.1, heights.2).expect(
        rt, "plan",
    );
    let traces = MemoryTraces {
        accesses,
        boundary,
        gaps,
    };
    let (alpha, beta) = challenges;
    let (alpha, beta) = (BabyBear4::from_u32(alpha), BabyBear4::from_u32(beta));
    check_memory(alloc, &plan, &traces, alpha, beta)
}

/// The answer for the memory above with these changes of each trace.
fn changed(
    rt: &impl Abort,
    alloc: Global,
    accesses: &[(usize, u32)],
    boundary: &[(usize, u32)],
    gaps: &[(usize, u32)],
) -> Result<(), BatchError> {
    let accesses = trace(rt, alloc, ACCESSES.as_slice(), 5, accesses);
    let boundary = trace(rt, alloc, BOUNDARY.as_slice(), 4, boundary);
    let gaps = trace(rt, alloc, GAPS.as_slice(), 2, gaps);
    checked(rt, alloc, accesses, boundary, gaps, CHALLENGES)
}

#[test]
fn a_consistent_memory_is_accepted(rt: HostRuntime) {
    let answer = changed(&rt, rt.alloc(), &[], &[], &[]);
    assert!(rt; answer == Ok(()));
}

/// Fails unless the messages of the memory do not balance with these changes of each trace.
fn is_unbalanced(
    rt: &impl Abort,
    alloc: Global,
    what: &str,
    accesses: &[(usize, u32)],
    boundary: &[(usize, u32)],
    gaps: &[(usize, u32)],
) {
    let answer = changed(rt, alloc, accesses, boundary, gaps);
    let unbalanced = Err(BatchError::Lookup(LookupError::TerminalSumNonZero));
    assert!(rt; answer == unbalanced, "{what}");
}

#[test]
fn an_inconsistent_memory_is_refused(rt: HostRuntime) {
    let alloc = rt.alloc();
    let what = "a row reads 7, where 6 was left";
    is_unbalanced(&rt, alloc, what, &[(11, 7)], &[], &[]);
    let what = "9 stands there at last, where 8 was left";
    is_unbalanced(&rt, alloc, what, &[], &[(6, 9)], &[]);
    let what = "a gap is provided once and queried twice";
    is_unbalanced(&rt, alloc, what, &[], &[], &[(3, 1)]);
    let what = "two accesses to an address at one time";
    is_unbalanced(&rt, alloc, what, &[(14, 1)], &[(3, 1)], &[(3, 1)]);
}

#[test]
fn traces_of_another_shape_are_refused(rt: HostRuntime) {
    let alloc = rt.alloc();
    let accesses = trace(&rt, alloc, ACCESSES.as_slice(), 5, &[]);
    let boundary = trace(&rt, alloc, BOUNDARY.as_slice(), 2, &[]);
    let gaps = trace(&rt, alloc, GAPS.as_slice(), 2, &[]);
    let answer = checked(&rt, alloc, accesses, boundary, gaps, CHALLENGES);
    let narrow = Err(BatchError::TraceMismatch { air: 1 });
    assert!(rt; answer == narrow, "the boundary's width");
    let accesses = trace(&rt, alloc, ACCESSES.as_slice(), 5, &[]);
    let boundary = trace(&rt, alloc, BOUNDARY.as_slice(), 4, &[]);
    let gaps = trace(&rt, alloc, &[], 2, &[]);
    let answer = checked(&rt, alloc, accesses, boundary, gaps, CHALLENGES);
    assert!(rt;
        answer == Err(BatchError::TraceMismatch { air: 2 }),
        "no gaps"
    );
}

/// An access has three lookups of weight 1, a boundary row two, and a gap is provided: in all
/// `3 * 2^31 + 2`.
#[test]
fn heights_at_which_counts_could_wrap_are_refused(rt: HostRuntime) {
    let refused = memory_plan::<BabyBear, BabyBear4>(rt.alloc(), 2147483648, 1, 1).err();
    let bound = LookupError::MultiplicityHeightBoundExceeded {
        weighted_height_sum: 6442450946,
        field_bits: 31,
    };
    assert!(rt; refused == Some(BatchError::Lookup(bound)));
}

/// At alpha 0 and beta 0 each prefix is 0, and a message combines to its last element. That of the
/// first row is the time 0.
#[test]
fn a_vanishing_denominator_is_a_fault(rt: HostRuntime) {
    let alloc = rt.alloc();
    let accesses = trace(&rt, alloc, ACCESSES.as_slice(), 5, &[]);
    let boundary = trace(&rt, alloc, BOUNDARY.as_slice(), 4, &[]);
    let gaps = trace(&rt, alloc, GAPS.as_slice(), 2, &[]);
    let answer = checked(&rt, alloc, accesses, boundary, gaps, (0, 0));
    let error = LookupError::VanishingDenominator { row: 0, lookup: 0 };
    assert!(rt; answer == Err(BatchError::Air { air: 0, error }));
}
