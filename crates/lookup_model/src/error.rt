//! Why a call of the lookup layer fails.
ghost use Rattle.std.specs.Prelude.{◌≡◌};
ghost use Rattle.lookup_model.specs.declared.error.LookupError.TheVariants.{Memory};

use air_expressions::AirError;
use std::alloc::{AllocError, AllocFailed};
use thiserror::Error;

/// A refusal of the lookup layer.
#[derive(Debug, Drop, PartialEq, Eq, Error)]
pub enum LookupError {
    /// Two tuples on one bus have different widths, in one lookup or in two.
    #[error("bus {bus}: tuple widths {expected} and {actual} differ")]
    BusWidthMismatch {
        bus: String,
        expected: usize,
        actual: usize,
    },
    /// The terminals of all AIRs do not cancel.
    #[error("cross-AIR lookup terminal sum is non-zero")]
    TerminalSumNonZero,
    /// Kept from the Rust crate; no call here returns it.
    #[error("lookup commitment presence does not match lookup configuration")]
    CommitmentMismatch,
    /// An AIR has a terminal but no lookups, or lookups but no terminal.
    #[error("air {air}: lookup terminal presence mismatch: expected_present={expected_present}, got_present={got_present}")]
    TerminalPresenceMismatch {
        air: usize,
        expected_present: bool,
        got_present: bool,
    },
    /// Kept from the Rust crate; no call here returns it.
    #[error("air {air}: permutation local/next length mismatch")]
    PermutationLengthMismatch {
        air: usize,
    },
    /// The auxiliary width is not the number of lookups plus one, or not 0 without lookups.
    #[error("air {air}: permutation width mismatch: expected {expected}")]
    PermutationWidthMismatch {
        air: usize,
        expected: usize,
    },
    /// The sum of the weights times the heights reaches the characteristic.
    #[error("LogUp multiplicity height-bound exceeded: weighted height sum {weighted_height_sum} reaches the ~2^{field_bits} field characteristic")]
    MultiplicityHeightBoundExceeded {
        weighted_height_sum: u128,
        field_bits: usize,
    },
    /// Tuples of one lookup, or of one bus whose lookups may share a column, have different widths.
    #[error("{context}: tuple widths {width} and {other} differ; every tuple folded into one lookup must share a payload width, or a shorter tuple can alias a longer one")]
    TupleWidths {
        context: String,
        width: usize,
        other: usize,
    },
    /// The weights of one lookup do not fit their type.
    #[error("count_weight overflow: aggregate lookup weight exceeds u64::MAX")]
    CountWeightOverflow,
    /// Out of memory.
    #[error("out of memory")]
    Memory,
    /// A sum of degrees does not fit `usize`.
    #[error("degree does not fit usize")]
    DegreeOverflow,
    /// The lists of a lookup have different lengths, or its column is not its index.
    #[error("lookup {lookup}: malformed record")]
    BadRecord {
        lookup: usize,
    },
    /// A denominator that has to be inverted is zero.
    #[error("row {row}, lookup {lookup}: vanishing denominator")]
    VanishingDenominator {
        row: usize,
        lookup: usize,
    },
    /// A flag is neither zero nor one.
    #[error("row {row}, lookup {lookup}: exclusive flag must be boolean")]
    FlagNotBoolean {
        row: usize,
        lookup: usize,
    },
    /// More than one flag is set.
    #[error("row {row}, lookup {lookup}: exclusive flags must sum to at most one per row")]
    FlagsNotExclusive {
        row: usize,
        lookup: usize,
    },
    /// An auxiliary trace does not have the height of its AIR.
    #[error("air {air}: permutation height mismatch")]
    PermutationHeightMismatch {
        air: usize,
    },
    /// A constraint of the lookup argument does not hold.
    #[error("air {air}: constraint failed at row {row}")]
    ConstraintFailed {
        air: usize,
        row: usize,
    },
    /// A count does not fit `u128`.
    #[error("count does not fit u128")]
    CountOverflow,
    /// Another refusal of an AIR.
    #[error("{0}")]
    Air(AirError),
}

impl From<AllocError> for LookupError {
    ghost from_gives = { λ _ e. e ≡ Memory };

    fn from(_error: AllocError) -> LookupError {
        LookupError::Memory
    }
}

impl<T: Drop> From<AllocFailed<T>> for LookupError {
    ghost from_gives = { λ _ e. e ≡ Memory };

    fn from(_error: AllocFailed<T>) -> LookupError {
        LookupError::Memory
    }
}

/// `Memory` and `DegreeOverflow` keep their names; any other refusal becomes `Air`.
impl From<AirError> for LookupError {
    ghost use Rattle.lookup_model.specs.Refusal.{from_air};

    ghost from_gives = { λ error e. e ≡ from_air error };

    fn from(error: AirError) -> LookupError {
        match error {
            AirError::Memory => LookupError::Memory,
            AirError::DegreeOverflow => LookupError::DegreeOverflow,
            other => LookupError::Air(other),
        }
    }
}
