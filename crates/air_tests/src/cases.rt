//! How a test ends at a case that does not hold, with what the case is.

use air::AirError;
use std::process::Abort;

/// Ends the test where `what` does not hold.
pub fn holds(rt: &impl Abort, what: &str, held: bool) {
    assert!(rt; held, "{what}");
}

/// What a check answers, and `None` where its arguments do not fit or memory runs out before it.
pub type Answer = Option<Result<(), AirError>>;

/// Ends the test where `what` is refused.
pub fn passes(rt: &impl Abort, what: &str, answer: Answer) {
    assert!(rt; answer == Some(Ok(())), "{what}");
}

/// Ends the test where `what` does not fail on just this row.
pub fn fails_at(rt: &impl Abort, what: &str, answer: Answer, row: usize) {
    assert!(rt; answer == Some(Err(AirError::Assertion { row })), "{what}");
}
