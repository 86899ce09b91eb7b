use crate::cases::holds;
use air_expressions::{AirError, LayoutPart};
use std::alloc::{AllocError, Global};
use std::fmt::Write;
use std::process::Abort;

/// Ends the test where an error is not printed as this text.
pub fn prints(rt: &impl Abort, alloc: Global, error: AirError, text: &str) {
    let mut printed = String::new(alloc);
    let is_written = write!(printed, "{error}").is_ok();
    holds(rt, text, is_written && printed.as_str() == text);
}

/// A layout with so many of a part, where the AIR has another number.
pub fn mismatch(part: LayoutPart, expected: usize, actual: usize) -> AirError {
    AirError::LayoutMismatch {
        part,
        expected,
        actual,
    }
}

#[test]
fn errors_print_their_texts(rt: HostRuntime) {
    let alloc = rt.alloc();
    let assertion = AirError::Assertion { row: 4 };
    prints(&rt, alloc, AirError::Memory, "out of memory");
    prints(&rt, alloc, assertion, "constraint failed at row 4");
    prints(
        &rt,
        alloc,
        AirError::DegreeOverflow,
        "degree does not fit usize",
    );
}

#[test]
fn parts_of_a_layout_print_their_names(rt: HostRuntime) {
    for (part, text) in [
        (LayoutPart::Main, "main width: layout says 2, the AIR has 3"),
        (
            LayoutPart::Preprocessed,
            "preprocessed width: layout says 2, the AIR has 3",
        ),
        (
            LayoutPart::PublicValues,
            "public values: layout says 2, the AIR has 3",
        ),
    ] {
        prints(&rt, rt.alloc(), mismatch(part, 3, 2), text);
    }
}

#[test]
fn want_of_memory_is_named(rt: HostRuntime) {
    let error = AirError::from(AllocError);
    holds(&rt, "out of memory", error == AirError::Memory);
    holds(&rt, "another error", error != AirError::DegreeOverflow);
}
