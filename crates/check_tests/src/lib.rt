//! The tests of `field_words`, `field_list`, `language_witness`, of `language_meaning` over fields, and of
//! all crates of `lookup-check`, in a crate of their own: a crate that has tests is proved twice.
//!
//! They show what no contract says: that calls succeed. What the program writes is in `cases/check/`.
#![tactic(auto)]

#[cfg(test)]
mod tests;
