//! The trace builder and the types that lookups are made of.
pub use lookup_messages::LookupTraceBuilder;
pub use lookup_model::{Kind, Lookup, LookupError, LookupTerminal};
