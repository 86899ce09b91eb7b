//! Why a plan with constraints is not made.
ghost use Rattle.std.specs.Prelude.{◌≡◌};
ghost use Rattle.batch_enforced.specs.declared.error.EnforcementError.TheVariants.{Memory};

use crate::unshown::UnshownFlags;
use batch::BatchError;
use std::alloc::AllocError;
use thiserror::Error;

/// A refusal of AIRs with constraints.
#[derive(Debug, Drop, PartialEq, Eq, Error)]
pub enum EnforcementError {
    /// Out of memory.
    #[error("out of memory")]
    Memory,
    /// There is not one list of constraints for each AIR.
    #[error("expected {expected} lists of constraints, got {actual}")]
    LengthMismatch { expected: usize, actual: usize },
    /// The refusal of the plan.
    #[error("{0}")]
    Plan(BatchError),
    /// The constraints of an AIR are not shown to enforce the flags of a lookup.
    #[error("{0}")]
    Flags(UnshownFlags),
}

impl From<AllocError> for EnforcementError {
    ghost from_gives = { λ _ e. e ≡ Memory };

    fn from(_error: AllocError) -> EnforcementError {
        EnforcementError::Memory
    }
}

/// `Memory` stays `Memory`; any other refusal becomes `Plan`.
impl From<BatchError> for EnforcementError {
    ghost use Rattle.batch_enforced.specs.PlanRefusals.{of_batch};

    ghost from_gives = { λ error e. e ≡ of_batch error };

    fn from(error: BatchError) -> EnforcementError {
        match error {
            BatchError::Memory => EnforcementError::Memory,
            other => EnforcementError::Plan(other),
        }
    }
}
