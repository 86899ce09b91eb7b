//! Why indexed declarations are refused.
ghost use Rattle.std.specs.Prelude.{◌≡◌};
ghost use Rattle.lookup_indexed.specs.declared.error.IndexedLookupError.TheVariants.{Memory};

use air_expressions::AirError;
use std::alloc::{AllocError, AllocFailed};
use thiserror::Error;

/// What is wrong with indexed declarations.
#[derive(Debug, Drop, PartialEq, Eq, Error)]
pub enum IndexedLookupError {
    /// Kept from the Rust crate; no call here returns it.
    #[error("the statement describes {expected} readers, and the claim list carries {actual}")]
    ClaimCount {
        expected: usize,
        actual: usize,
    },
    /// Kept from the Rust crate; no call here returns it.
    #[error("reader {reader} pulls {expected} columns, and claims {actual} values")]
    ClaimWidth {
        reader: usize,
        expected: usize,
        actual: usize,
    },
    /// A column is not below the width of its window.
    #[error("table {table}: column {column} is out of range for a window of width {width}")]
    ColumnOutOfRange {
        table: String,
        column: usize,
        width: usize,
    },
    /// A payload or a table names a column that it has named before.
    #[error("table {table}: column {column} is named twice by one declaration")]
    RepeatedColumn {
        table: String,
        column: usize,
    },
    /// A reader reads no column.
    #[error("table {table}: a reader must pull at least one column")]
    EmptyPayload {
        table: String,
    },
    /// A table has no column.
    #[error("table {table}: a table entry must carry at least one column")]
    EmptyTable {
        table: String,
    },
    /// Kept from the Rust crate; no call here returns it.
    #[error("table {table}: provided by air {first} and again by air {second}")]
    TableProvidedTwice {
        table: String,
        first: usize,
        second: usize,
    },
    /// Kept from the Rust crate; no call here returns it.
    #[error("table {table}: read by air {air} but provided by none")]
    TableNotProvided {
        table: String,
        air: usize,
    },
    /// Kept from the Rust crate; no call here returns it.
    #[error("table {table}: provided by air {air} but read by none")]
    TableNotRead {
        table: String,
        air: usize,
    },
    /// Kept from the Rust crate; no call here returns it.
    #[error("table {table}: a table needs at least two entries for the reduction to split on")]
    TableWithoutEntries {
        table: String,
    },
    /// Kept from the Rust crate; no call here returns it.
    #[error("table {table}: 2^{num_variables} entries do not embed injectively in a field of {bits} bits")]
    TableTooLarge {
        table: String,
        num_variables: usize,
        bits: usize,
    },
    /// Kept from the Rust crate; no call here returns it.
    #[error("table {table}: air {air} pulls {pulled} columns from a table carrying {carried}")]
    WidthMismatch {
        table: String,
        air: usize,
        pulled: usize,
        carried: usize,
    },
    /// Out of memory.
    #[error("out of memory")]
    Memory,
    /// Another refusal of an AIR.
    #[error("{0}")]
    Air(AirError),
}

impl From<AllocError> for IndexedLookupError {
    ghost from_gives = { λ _ e. e ≡ Memory };

    fn from(_error: AllocError) -> IndexedLookupError {
        IndexedLookupError::Memory
    }
}

impl<T: Drop> From<AllocFailed<T>> for IndexedLookupError {
    ghost from_gives = { λ _ e. e ≡ Memory };

    fn from(_error: AllocFailed<T>) -> IndexedLookupError {
        IndexedLookupError::Memory
    }
}

/// `Memory` stays `Memory`; any other refusal becomes `Air`.
impl From<AirError> for IndexedLookupError {
    ghost use Rattle.lookup_indexed.specs.Refusal.{declaration_refusal};

    ghost from_gives = { λ error e. e ≡ declaration_refusal error };

    fn from(error: AirError) -> IndexedLookupError {
        match error {
            AirError::Memory => IndexedLookupError::Memory,
            other => IndexedLookupError::Air(other),
        }
    }
}
