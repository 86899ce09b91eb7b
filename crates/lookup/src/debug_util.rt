//! The debug check: which tuples do not balance, by how much, and on which rows; and why lookups do not fit
//! their traces.

pub use lookup_debug::{
    BusGroup, Cell, FitFault, GroupName, Location, LookupDebugInstance, LookupFault, Mismatch,
    Place, SignedField, UnbalancedTuple, bus_table, check_lookups, fit_fault, mismatch_of,
};
