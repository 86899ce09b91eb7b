//! The field of the integers modulo `2^64 - 2^32 + 1`, and its quadratic extension.
//!
//! `Goldilocks` and `Goldilocks2` are lawful fields by the traits of `field`, with text and JSON as the
//! fields there have them.
#![tactic(auto)]

mod goldilocks;
mod goldilocks2;
mod reading;

pub use goldilocks::Goldilocks;
pub use goldilocks2::Goldilocks2;
