//! Laws of lists, which the proofs of all crates above cite. It holds no code.
//!
//! `proofs/` has a module for each notion: `Each` (what holds of each item), `Items` (the item at an
//! index, and the items before it), `Images` (lists mapped and filtered), `Parts` (parts put together)
//! and `Zips` (two lists side by side).
#![tactic(auto)]
