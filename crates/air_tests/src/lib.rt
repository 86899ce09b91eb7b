//! The tests of `air_expressions` and `air`: trees and degrees, layouts, refusals, and AIRs that are
//! recorded, resolved and checked.
//!
//! They have a crate of their own, so that the crates that they test are proved once and not twice.
#![tactic(auto)]

#[cfg(test)]
mod base_expressions;
#[cfg(test)]
mod cases;
#[cfg(test)]
mod errors;
#[cfg(test)]
mod ext_expressions;
#[cfg(test)]
mod filters;
#[cfg(test)]
mod layouts;
#[cfg(test)]
mod machines;
#[cfg(test)]
mod permutations;
#[cfg(test)]
mod recording;
#[cfg(test)]
mod resolving;
#[cfg(test)]
mod rows;
#[cfg(test)]
mod traces;
