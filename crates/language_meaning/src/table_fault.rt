//! Why the tables of a batch are refused, and where.
ghost use Rattle.std.specs.Prelude.{◌≡◌};
ghost use Rattle.language_meaning.specs.declared.table_fault.TableFault.TheVariants.{Memory};

use language::{Span, Why};
use std::alloc::{AllocError, AllocFailed};

/// What is wrong with the tables of an AIR.
#[derive(Debug, Clone, Copy, PartialEq, Eq)]
pub enum TableWhy {
    /// The AIR names no trace.
    NoTrace,
    /// The AIR names a second trace.
    RepeatedTrace,
    /// The AIR names a second preprocessed trace.
    RepeatedPreprocessed,
    /// The AIR has no trace, and says no columns.
    NoColumns,
    /// The AIR has no trace, and says no height.
    NoHeight,
    /// The AIR says its columns a second time.
    RepeatedColumns,
    /// The AIR says its height a second time.
    RepeatedHeight,
    /// A column has the name of one before it.
    RepeatedColumn,
    /// The file cannot be read.
    Unreadable,
    /// The text of the file has a fault.
    Text(Why),
}

/// A place at which something is wrong, and what it is.
#[derive(Debug, Clone, Copy, PartialEq, Eq)]
pub struct TableRefusal {
    /// Where the text of the batch names the file with the fault, or `None` for the text itself.
    pub file: Option<Span>,
    /// The byte of that file, or of the text.
    pub at: usize,
    pub why: TableWhy,
}

/// Why tables could not be read.
#[derive(Debug, Clone, Copy, PartialEq, Eq)]
pub enum TableFault {
    /// Memory ran out.
    Memory,
    /// The first fault, AIR by AIR.
    Refused(TableRefusal),
}

impl From<AllocError> for TableFault {
    ghost from_gives = { λ _ e. e ≡ Memory };

    fn from(_error: AllocError) -> TableFault {
        TableFault::Memory
    }
}

impl<T: Drop> From<AllocFailed<T>> for TableFault {
    ghost from_gives = { λ _ e. e ≡ Memory };

    fn from(_error: AllocFailed<T>) -> TableFault {
        TableFault::Memory
    }
}
