//! Why lookups are refused over a field, and where.
ghost use Rattle.std.specs.Prelude.{◌≡◌};
ghost use Rattle.language_meaning.specs.declared.element_fault.ElementFault.TheVariants.{Memory};

use std::alloc::{AllocError, AllocFailed};

/// What is wrong with a lookup.
#[derive(Debug, Clone, Copy, PartialEq, Eq)]
pub enum ElementWhy {
    /// The name of its bus is no UTF-8.
    BusName,
    /// Its weights do not fit 64 bits.
    Weight,
}

/// The byte of a text at which something is wrong, and what it is.
#[derive(Debug, Clone, Copy, PartialEq, Eq)]
pub struct ElementRefusal {
    pub at: usize,
    pub why: ElementWhy,
}

/// Why lookups could not be made.
#[derive(Debug, Clone, Copy, PartialEq, Eq)]
pub enum ElementFault {
    /// Memory ran out.
    Memory,
    /// The first fault.
    Refused(ElementRefusal),
}

impl From<AllocError> for ElementFault {
    ghost from_gives = { λ _ e. e ≡ Memory };

    fn from(_error: AllocError) -> ElementFault {
        ElementFault::Memory
    }
}

impl<T: Drop> From<AllocFailed<T>> for ElementFault {
    ghost from_gives = { λ _ e. e ≡ Memory };

    fn from(_error: AllocFailed<T>) -> ElementFault {
        ElementFault::Memory
    }
}
