//! The tests of `checker`, `example_machines` and `example_memory`, in a crate of their own: a
//! test is proved like any other function, and a crate that has tests is proved twice.
//!
//! They show what no contract says: that calls succeed, what the program writes, and that the
//! definitions mean what they should, by values that were calculated by hand or are the Rust crate's.
#![tactic(auto)]

#[cfg(test)]
mod tests;
