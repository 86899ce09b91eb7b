//! Indexed lookups.
pub use lookup_record::{
    IndexedDeclarations, IndexedLookupError, IndexedLookups, IndexedRead, IndexedTable, TraceWindow,
};
