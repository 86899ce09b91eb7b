//! Words as numbers, and as elements of fields: the challenges of a command line.
#![tactic(auto)]

mod challenge;
mod elements;

pub use challenge::{Challenge, Written, number};
pub use elements::elements_of;
