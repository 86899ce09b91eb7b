//! The tests of `lookup_columns`, `lookup_messages`, `lookup_constraints` and `lookup_generation`, most of
//! them through the gadget of `lookup`, in a crate of their own: a test is proved like any other function,
//! and a crate that has tests is proved twice.
//!
//! They show what no contract says: that calls succeed, and that the definitions mean what they
//! should, by values that were calculated by hand or are the Rust crate's. `plain` is the program that
//! the generated traces are compared with.
#![tactic(auto)]

pub mod plain;
#[cfg(test)]
mod tests;
