//! The tests of `language` and `language_meaning`, in a crate of their own: a crate that has tests is
//! proved twice.
//!
//! They show what no contract says: that calls succeed, and what whole texts say.
#![tactic(auto)]

#[cfg(test)]
mod tests;
