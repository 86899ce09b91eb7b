//! Why names or messages are refused, and where.
ghost use Rattle.std.specs.Prelude.{◌≡◌};
ghost use Rattle.language_meaning.specs.declared.name_fault.NameFault.TheVariants.{Memory, Refused};

use std::alloc::{AllocError, AllocFailed};

/// What is wrong with a name or a message.
#[derive(Debug, Clone, Copy, PartialEq, Eq)]
pub enum NameWhy {
    /// No column, public value, definition or selector has this name.
    UnknownName,
    /// No column has this name, of which the next row is asked for.
    UnknownColumn,
    /// How often a message counts is not written as a number, and the most is not said.
    NoWeight,
    /// There is no room for the nodes of an expression, where each name stands for its value and a
    /// power for its factors.
    LargeExpression,
    /// An expression has more than 1,024 layers, where each name stands for its value and a power
    /// for its products.
    DeepExpression,
    /// A name has a definition before this one.
    RepeatedDefinition,
    /// A bus was declared before with this name.
    RepeatedBus,
    /// No bus is declared with this name, and others are.
    UndeclaredBus,
    /// A tuple has another number of values than its bus declares.
    TupleWidth,
    /// A message of a group is on another bus than the first.
    OtherBus,
    /// A group has no message.
    EmptyGroup,
    /// Lookups from a file are not read.
    LookupsFile,
}

/// The byte of a text at which something is wrong, and what it is.
#[derive(Debug, Clone, Copy, PartialEq, Eq)]
pub struct NameRefusal {
    pub at: usize,
    pub why: NameWhy,
}

/// Why names could not be looked up.
#[derive(Debug, Clone, Copy, PartialEq, Eq)]
pub enum NameFault {
    /// Memory ran out.
    Memory,
    /// The first fault from left to right.
    Refused(NameRefusal),
}

pub(crate) fn refused(at: usize, why: NameWhy) -> NameFault
    ensures { result ≡ NameFault.Refused (record { at = at; why = why }) }
{
    NameFault::Refused(NameRefusal { at, why })
}

impl From<NameRefusal> for NameFault {
    ghost from_gives = { λ r e. e ≡ Refused r };

    fn from(refusal: NameRefusal) -> NameFault {
        NameFault::Refused(refusal)
    }
}

impl From<AllocError> for NameFault {
    ghost from_gives = { λ _ e. e ≡ Memory };

    fn from(_error: AllocError) -> NameFault {
        NameFault::Memory
    }
}

impl<T: Drop> From<AllocFailed<T>> for NameFault {
    ghost from_gives = { λ _ e. e ≡ Memory };

    fn from(_error: AllocFailed<T>) -> NameFault {
        NameFault::Memory
    }
}
