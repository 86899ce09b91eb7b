//! Why a call over a batch fails.
ghost use Rattle.lookup_model.specs.Batches.Faults.{IsFaultOf, IsOutOfMemory};

use crate::error::LookupError;
use std::alloc::{AllocError, AllocFailed};

/// A refusal of a call over a batch, with the AIR that it comes from.
#[derive(Debug, Drop)]
pub struct BatchFault {
    /// The index of the AIR in the batch; none if memory ran out or a count does not fit.
    pub air: Option<usize>,
    /// What is refused.
    pub error: LookupError,
}

impl BatchFault {
    /// The refusal of one AIR; out of memory belongs to no AIR.
    pub fn of_air(air: usize, error: LookupError) -> Self
        ensures { IsFaultOf air error result }
    {
        match error {
            LookupError::Memory => BatchFault::memory_fault(),
            other => BatchFault {
                air: Some(air),
                error: other,
            },
        }
    }

    fn memory_fault() -> Self
        ensures { IsOutOfMemory result }
    {
        BatchFault {
            air: None,
            error: LookupError::Memory,
        }
    }
}

impl From<AllocError> for BatchFault {
    ghost use Rattle.lookup_model.specs.Batches.Faults.{IsOutOfMemory};

    ghost from_gives = { λ _ fault. IsOutOfMemory fault };

    fn from(_error: AllocError) -> BatchFault {
        BatchFault::memory_fault()
    }
}

impl<T: Drop> From<AllocFailed<T>> for BatchFault {
    ghost use Rattle.lookup_model.specs.Batches.Faults.{IsOutOfMemory};

    ghost from_gives = { λ _ fault. IsOutOfMemory fault };

    fn from(_error: AllocFailed<T>) -> BatchFault {
        BatchFault::memory_fault()
    }
}
