//! The tests of `lookup_enforced` and `batch_enforced`, at values that were calculated by hand.
#![tactic(auto)]

#[cfg(test)]
mod tests;
