//! Why a batch is not judged.
ghost use Rattle.std.specs.Prelude.{◌≡◌};
ghost use Rattle.check_judge.specs.declared.fault.JudgeFault.TheVariants.{Memory, Name};

use batch::BatchError;
use language_meaning::{ElementFault, ElementRefusal, NameFault, NameRefusal};
use lookup::LookupError;
use lookup::debug_util::FitFault;
use std::alloc::{AllocError, AllocFailed};

/// A refusal to judge a batch.
#[derive(Debug, Drop)]
pub enum JudgeFault {
    /// Out of memory.
    Memory,
    /// A name or a message, at its byte of the text.
    Name(NameRefusal),
    /// A lookup that cannot be made over the field, at its byte of the text.
    Element(ElementRefusal),
    /// There are not as many tables or shapes as AIRs.
    Tables { airs: usize, tables: usize },
    /// The main or the preprocessed table of this AIR has no row, or a row that is not whole.
    Rows { air: usize, preprocessed: bool },
    /// The lookups of this AIR do not fit its tables.
    Fit { air: usize, fault: FitFault },
    /// The lookups of this AIR cannot be packed, or the degree of one does not fit 64 bits.
    Lookups { air: usize, error: LookupError },
    /// The lookups of all AIRs do not make a plan, or their messages cannot be counted.
    Batch(BatchError),
}

impl From<AllocError> for JudgeFault {
    ghost from_gives = { λ _ e. e ≡ Memory };

    fn from(_error: AllocError) -> JudgeFault {
        JudgeFault::Memory
    }
}

impl<T: Drop> From<AllocFailed<T>> for JudgeFault {
    ghost from_gives = { λ _ e. e ≡ Memory };

    fn from(_error: AllocFailed<T>) -> JudgeFault {
        JudgeFault::Memory
    }
}

impl From<NameRefusal> for JudgeFault {
    ghost from_gives = { λ refusal e. e ≡ Name refusal };

    fn from(refusal: NameRefusal) -> JudgeFault {
        JudgeFault::Name(refusal)
    }
}

/// Out of memory keeps its name.
impl From<NameFault> for JudgeFault {
    ghost use Rattle.check_judge.specs.Refusals.{of_name};

    ghost from_gives = { λ fault e. e ≡ of_name fault };

    fn from(fault: NameFault) -> JudgeFault {
        match fault {
            NameFault::Memory => JudgeFault::Memory,
            NameFault::Refused(refusal) => JudgeFault::Name(refusal),
        }
    }
}

/// Out of memory keeps its name.
impl From<ElementFault> for JudgeFault {
    ghost use Rattle.check_judge.specs.Refusals.{of_element};

    ghost from_gives = { λ fault e. e ≡ of_element fault };

    fn from(fault: ElementFault) -> JudgeFault {
        match fault {
            ElementFault::Memory => JudgeFault::Memory,
            ElementFault::Refused(refusal) => JudgeFault::Element(refusal),
        }
    }
}

/// Out of memory keeps its name.
impl From<BatchError> for JudgeFault {
    ghost use Rattle.check_judge.specs.Refusals.{of_batch};

    ghost from_gives = { λ error e. e ≡ of_batch error };

    fn from(error: BatchError) -> JudgeFault {
        match error {
            BatchError::Memory => JudgeFault::Memory,
            other => JudgeFault::Batch(other),
        }
    }
}
