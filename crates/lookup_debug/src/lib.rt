//! The debug check of lookups: which tuples do not balance, by how much, and on which rows.
//!
//! `check_lookups` takes each local lookup by itself and then each bus. The tuples of such a group are
//! collected in one list of elements, and a map from slices of it to nets adds them up: now and then,
//! so that equal tuples take no more memory, and at the end. Texts are made only of tuples that do not
//! balance. A second walk finds the locations of the first of them: it compares each tuple with it.
//!
//! `mismatch_of` gives the same as data, and `bus_table` a row for each group: how many contributions are
//! sent and received, how many tuples there are, and which do not balance. Their second walk looks each
//! tuple up in a map of those that are listed. `fit_fault` says why lookups do not fit their traces.
#![tactic(auto)]

mod arena;
mod check;
mod contributions;
mod fault;
mod first;
mod first_unbalanced;
mod fit;
mod group_table;
mod groups;
mod instance;
mod labels;
mod named_group;
mod places;
mod tally;
mod tuple_locations;
mod unbalanced;
mod walk;

pub use check::check_lookups;
pub use fault::{Location, LookupFault};
pub use field::SignedField;
pub use first_unbalanced::{Mismatch, mismatch_of};
pub use fit::{Cell, FitFault, fit_fault};
pub use group_table::{BusGroup, bus_table};
pub use instance::LookupDebugInstance;
pub use named_group::GroupName;
pub use unbalanced::{Place, UnbalancedTuple};
