//! How a test ends at a case that does not hold, with what the case is.

use field::Field;
use std::alloc::Global;
use std::process::Abort;

/// Ends the test where `what` does not hold.
pub fn holds(rt: &impl Abort, what: &str, held: bool) {
    assert!(rt; held, "{what}");
}

/// Ends the test where `what` does not hold of this number.
pub fn holds_at(rt: &impl Abort, what: &str, number: u32, held: bool) {
    assert!(rt; held, "{what} at {number}");
}

/// Ends the test where `what` does not hold of these numbers.
pub fn holds_of(rt: &impl Abort, what: &str, a: u32, b: u32, held: bool) {
    assert!(rt; held, "{what} at {a} and {b}");
}

/// Ends the test where `what` is another element.
pub fn is<K: Field>(rt: &impl Abort, what: &str, found: K, wanted: K) {
    assert!(rt; found == wanted, "{what}");
}

/// Ends the test where this element, which `what` names, is zero or has another inverse.
pub fn inverts<K: Field>(rt: &impl Abort, what: &str, x: K, wanted: K) {
    assert!(rt; !x.is_zero(), "{what} is zero");
    is(rt, what, x.inverse(), wanted);
    match x.try_inverse() {
        Some(found) => is(rt, what, found, wanted),
        None => holds(rt, what, false),
    }
}

/// Ends the test where zero has an inverse, or is not zero.
pub fn zero_has_no_inverse<K: Field>(rt: &impl Abort, zero: K) {
    holds(rt, "zero is zero", zero.is_zero());
    holds(rt, "zero has no inverse", zero.try_inverse().is_none());
}

/// Whether an element is written as this text.
pub fn has_text<K: Field>(alloc: Global, x: K, text: &str) -> bool {
    match x.text(alloc) {
        Ok(found) => found.as_str() == text,
        Err(_) => false,
    }
}

/// Ends the test where `what` does not hold for this text.
pub fn holds_for(rt: &impl Abort, what: &str, text: &str, held: bool) {
    assert!(rt; held, "{what}: {text}");
}
