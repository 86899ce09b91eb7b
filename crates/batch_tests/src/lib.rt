//! The tests of `batch`: its plans at values that were calculated by hand, every refusal by its name,
//! and a thousand plans drawn at random against a plain numbering.
#![tactic(auto)]

#[cfg(test)]
mod tests;
