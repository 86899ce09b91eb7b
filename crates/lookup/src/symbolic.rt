//! The builder that records a whole AIR.
pub use lookup_record::InteractionSymbolicBuilder;
