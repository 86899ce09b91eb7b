//! The texts of refusals, and how those of an AIR are handed on.
use super::{holds, text};
use air::AirError;
use lookup::LookupError;
use std::alloc::Global;
use std::fmt::Write;
use std::process::Abort;

/// Fails, with what is written, unless a refusal is written as this text.
fn is_written(rt: &impl Abort, alloc: Global, error: LookupError, text: &str) {
    let mut written = String::new(alloc);
    holds(rt, text, write!(written, "{error}").is_ok());
    holds(rt, written.as_str(), written.as_str() == text);
}

#[test]
fn texts_of_refusals_with_names(rt: HostRuntime) {
    let alloc = rt.alloc();
    let mismatch = LookupError::BusWidthMismatch {
        bus: text(&rt, alloc, "a"),
        expected: 1,
        actual: 2,
    };
    is_written(&rt, alloc, mismatch, "bus a: tuple widths 1 and 2 differ");
    let widths = LookupError::TupleWidths {
        context: text(&rt, alloc, "local lookup"),
        width: 1,
        other: 2,
    };
    is_written(
        &rt,
        alloc,
        widths,
        "local lookup: tuple widths 1 and 2 differ; every tuple folded into one lookup must share a payload width, or a shorter tuple can alias a longer one",
    );
}

#[test]
fn texts_of_refused_witnesses(rt: HostRuntime) {
    let alloc = rt.alloc();
    let absent = LookupError::TerminalPresenceMismatch {
        air: 3,
        expected_present: true,
        got_present: false,
    };
    let absent_text =
        "air 3: lookup terminal presence mismatch: expected_present=true, got_present=false";
    is_written(&rt, alloc, absent, absent_text);
    let narrow = LookupError::PermutationWidthMismatch {
        air: 1,
        expected: 4,
    };
    let narrow_text = "air 1: permutation width mismatch: expected 4";
    is_written(&rt, alloc, narrow, narrow_text);
    let lengths = LookupError::PermutationLengthMismatch { air: 1 };
    let lengths_text = "air 1: permutation local/next length mismatch";
    is_written(&rt, alloc, lengths, lengths_text);
    let heights = LookupError::PermutationHeightMismatch { air: 2 };
    is_written(&rt, alloc, heights, "air 2: permutation height mismatch");
    let failed = LookupError::ConstraintFailed { air: 2, row: 8 };
    is_written(&rt, alloc, failed, "air 2: constraint failed at row 8");
    let terminals = LookupError::TerminalSumNonZero;
    let terminals_text = "cross-AIR lookup terminal sum is non-zero";
    is_written(&rt, alloc, terminals, terminals_text);
    let commitment = LookupError::CommitmentMismatch;
    let commitment_text = "lookup commitment presence does not match lookup configuration";
    is_written(&rt, alloc, commitment, commitment_text);
}

#[test]
fn texts_of_refused_rows(rt: HostRuntime) {
    let alloc = rt.alloc();
    let vanishing = LookupError::VanishingDenominator { row: 5, lookup: 6 };
    let vanishing_text = "row 5, lookup 6: vanishing denominator";
    is_written(&rt, alloc, vanishing, vanishing_text);
    let flag = LookupError::FlagNotBoolean { row: 5, lookup: 6 };
    let flag_text = "row 5, lookup 6: exclusive flag must be boolean";
    is_written(&rt, alloc, flag, flag_text);
    let flags = LookupError::FlagsNotExclusive { row: 5, lookup: 6 };
    let flags_text = "row 5, lookup 6: exclusive flags must sum to at most one per row";
    is_written(&rt, alloc, flags, flags_text);
    let record = LookupError::BadRecord { lookup: 9 };
    is_written(&rt, alloc, record, "lookup 9: malformed record");
    let assertion = LookupError::Air(AirError::Assertion { row: 4 });
    is_written(&rt, alloc, assertion, "constraint failed at row 4");
}

#[test]
fn texts_of_what_does_not_fit(rt: HostRuntime) {
    let alloc = rt.alloc();
    let bound = LookupError::MultiplicityHeightBoundExceeded {
        weighted_height_sum: 7,
        field_bits: 3,
    };
    is_written(
        &rt,
        alloc,
        bound,
        "LogUp multiplicity height-bound exceeded: weighted height sum 7 reaches the ~2^3 field characteristic",
    );
    let weight = LookupError::CountWeightOverflow;
    let weight_text = "count_weight overflow: aggregate lookup weight exceeds u64::MAX";
    is_written(&rt, alloc, weight, weight_text);
    is_written(&rt, alloc, LookupError::Memory, "out of memory");
    let degree = LookupError::DegreeOverflow;
    is_written(&rt, alloc, degree, "degree does not fit usize");
    let count = LookupError::CountOverflow;
    is_written(&rt, alloc, count, "count does not fit u128");
}

#[test]
fn refusals_of_an_air_keep_their_names(rt: HostRuntime) {
    let memory = LookupError::from(AirError::Memory);
    holds(&rt, "memory", memory == LookupError::Memory);
    let overflow = LookupError::from(AirError::DegreeOverflow);
    holds(&rt, "degrees", overflow == LookupError::DegreeOverflow);
    let assertion = LookupError::from(AirError::Assertion { row: 1 });
    let wanted = LookupError::Air(AirError::Assertion { row: 1 });
    holds(&rt, "others", assertion == wanted);
}
