//! Declarations as they are read from a format.

use crate::indexed::{IndexedRead, IndexedTable};
use serde::Deserialize;

/// The indexed declarations of an AIR, not checked yet.
///
/// JSON is read into this type, and `IndexedLookups::new` checks it.
#[derive(Debug, Drop, PartialEq, Eq, Deserialize)]
pub struct IndexedDeclarations {
    /// The readers, in the order in which they are declared.
    pub reads: Vec<IndexedRead>,
    /// The tables, in the order in which they are declared.
    pub tables: Vec<IndexedTable>,
}
