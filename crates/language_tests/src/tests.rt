//! Texts, and what is read of them.
mod batches;
mod examples;
mod files;
mod formulas;
mod lookups;
mod names;
mod show;
mod tables;
mod tokens;

use language::{Place, TextFault, Why, place_of};
use std::process::Abort;

fn holds(rt: &impl Abort, what: &str, fact: bool) {
    assert!(rt; fact, "{what}");
}

/// Whether a fault is this one, at this line and column of the text.
fn is_at(text: &[u8], fault: TextFault, line: usize, column: usize, why: Why) -> bool {
    match fault {
        TextFault::Memory => false,
        TextFault::Fault(fault) => {
            fault.why == why && place_of(text, fault.at) == Place { line, column }
        }
    }
}
