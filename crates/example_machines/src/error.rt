//! Why a run is refused.
ghost use Rattle.std.specs.Prelude.{◌≡◌};
ghost use Rattle.example_machines.specs.declared.error.RunError.TheVariants.{Memory};

use batch::BatchError;
use std::alloc::{AllocError, AllocFailed};
use thiserror::Error;

/// A refusal of the program. Its text follows `error: `.
#[derive(Debug, Drop, Error)]
pub enum RunError {
    /// There are not four words.
    #[error("usage: lookup-run MACHINE FIELD ALPHA BETA")]
    Usage,
    /// The first word names no machine.
    #[error("unknown machine: {0}")]
    UnknownMachine(String),
    /// The second word names no field.
    #[error("unknown field: {0}")]
    UnknownField(String),
    /// A word gives no challenge.
    #[error("bad challenge: {0}")]
    BadChallenge(String),
    /// Standard input cannot be read.
    #[error("cannot read input")]
    CannotReadInput,
    /// A line has words, but not one for each column.
    #[error("line {line}: expected {columns} numbers")]
    WrongCount { line: usize, columns: usize },
    /// A word of a line is not a number below the characteristic.
    #[error("line {line}: bad number")]
    BadNumber { line: usize },
    /// The input has no row.
    #[error("no rows")]
    NoRows,
    /// The counts of the rows may wrap, or the auxiliary trace of an AIR cannot be made.
    #[error("{0}")]
    Batch(BatchError),
    /// Out of memory.
    #[error("out of memory")]
    Memory,
}

impl From<AllocError> for RunError {
    ghost from_gives = { λ _ e. e ≡ Memory };

    fn from(_error: AllocError) -> RunError {
        RunError::Memory
    }
}

impl<T: Drop> From<AllocFailed<T>> for RunError {
    ghost from_gives = { λ _ e. e ≡ Memory };

    fn from(_error: AllocFailed<T>) -> RunError {
        RunError::Memory
    }
}

/// Out of memory keeps its name.
impl From<BatchError> for RunError {
    ghost use Rattle.example_machines.specs.Refusal.{of_batch};

    ghost from_gives = { λ error e. e ≡ of_batch error };

    fn from(error: BatchError) -> RunError {
        match error {
            BatchError::Memory => RunError::Memory,
            other => RunError::Batch(other),
        }
    }
}
