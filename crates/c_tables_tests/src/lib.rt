//! The tests of `c_tables`, in a crate of their own: a crate that has tests is proved twice.
//!
//! They show what no contract says: that calls succeed, and what is refused of a record.
#![tactic(auto)]

#[cfg(test)]
mod tests;
