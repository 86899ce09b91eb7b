//! Why a call is refused, before it is written for C.
ghost use Rattle.std.specs.Prelude.{◌≡◌};
ghost use Rattle.c_calls.specs.declared.fault.Fault.TheVariants.{Batch, Memory};
ghost use Rattle.c_calls.specs.internal.Faults.{IsLookupFault};

use crate::codes::Part;
use air_constraints::ConstraintFault;
use batch::BatchError;
use c_tables::{TableFault, TraceFault};
use lookup::LookupError;
use std::alloc::{AllocError, AllocFailed};
use thiserror::Error;

/// A refusal of a call.
#[derive(Debug, Drop, Error)]
pub enum Fault {
    /// Out of memory.
    #[error("out of memory")]
    Memory,
    /// A record of an AIR is no lookup.
    #[error("air {air}, lookup {lookup}: {fault}")]
    Table {
        air: usize,
        lookup: usize,
        fault: TableFault,
    },
    /// The numbers of an AIR are no traces.
    #[error("air {air}, {fault}")]
    Traces {
        air: usize,
        fault: TraceFault,
    },
    /// One of the four numbers at this index of a list is not below the modulus.
    #[error("air {air}, {part}: number {index} is not below the modulus")]
    Large {
        part: Part,
        air: usize,
        index: usize,
    },
    /// An id is not below the number of ids.
    #[error("ids: number {index} is not below the number of ids")]
    Id {
        index: usize,
    },
    /// The width of a plan is zero.
    #[error("the width of the plan is 0")]
    Width,
    /// A range has no rows, or ends past the height.
    #[error("the range has no rows, or ends past the height")]
    Rows,
    /// A text is no JSON, or not that of lookups.
    #[error("{0}")]
    Text(serde_json::Error),
    /// A list has another length than the call asks for, or is too short.
    #[error("{part}: expected {expected}, got {actual}")]
    Length {
        part: Part,
        expected: usize,
        actual: usize,
    },
    /// The numbers of a witness make no whole rows.
    #[error("air {air}, auxiliary trace: the numbers make no whole rows")]
    Ragged {
        air: usize,
    },
    /// The lookups do not fit the traces, or have no row to read.
    #[error("air {air}: the lookups do not fit the traces, or have no row to read")]
    Misfit {
        air: usize,
    },
    /// The preprocessed trace does not have the height of the main trace.
    #[error("air {air}: the preprocessed trace does not have the height of the main trace")]
    Heights {
        air: usize,
    },
    /// A refusal of the lookups of one AIR.
    #[error("air {air}: {error}")]
    Lookup {
        air: usize,
        error: LookupError,
    },
    /// A tuple that does not balance.
    #[error("{text}")]
    Mismatch {
        text: String,
    },
    /// A refusal of a call on a plan.
    #[error("{0}")]
    Batch(BatchError),
    /// A range of nodes is no list of constraints.
    #[error("constraints: {fault}")]
    Constraints {
        fault: TableFault,
    },
    /// A constraint reads past the traces, or a row that is neither the current one nor the next.
    #[error("a constraint reads past the traces, or a row that is neither this one nor the next")]
    UnfitConstraints,
    /// A constraint that is not zero on a row of the traces.
    #[error("{0}")]
    Nonzero(ConstraintFault),
}

impl From<BatchError> for Fault {
    ghost from_gives = { λ error e. e ≡ Batch error };

    fn from(error: BatchError) -> Fault {
        Fault::Batch(error)
    }
}

impl From<AllocError> for Fault {
    ghost from_gives = { λ _ e. e ≡ Memory };

    fn from(_error: AllocError) -> Fault {
        Fault::Memory
    }
}

impl<T: Drop> From<AllocFailed<T>> for Fault {
    ghost from_gives = { λ _ e. e ≡ Memory };

    fn from(_error: AllocFailed<T>) -> Fault {
        Fault::Memory
    }
}

/// Why the lookups of an AIR that is alone are refused.
pub(crate) fn lookup_fault(error: LookupError) -> Fault
    ensures { IsLookupFault error result }
{
    match error {
        LookupError::Memory => Fault::Memory,
        error => Fault::Lookup { air: 0, error },
    }
}
