//! The refusals of this layer.

use std::alloc::{AllocError, AllocFailed};
use std::fmt;
use thiserror::Error;

/// A part of a layout that an AIR can disagree with.
#[derive(Clone, Copy, Debug, PartialEq, Eq)]
pub enum LayoutPart {
    /// The width of the main trace.
    Main,
    /// The width of the preprocessed trace.
    Preprocessed,
    /// The number of public values.
    PublicValues,
}

impl fmt::Display for LayoutPart {
    fn fmt<W: fmt::Write>(&self, f: &mut fmt::Formatter<W>) -> fmt::Result {
        match self {
            LayoutPart::Main => write!(f, "main width"),
            LayoutPart::Preprocessed => write!(f, "preprocessed width"),
            LayoutPart::PublicValues => write!(f, "public values"),
        }
    }
}

/// Why a call of this layer failed.
#[derive(Clone, Copy, Debug, PartialEq, Eq, Error)]
pub enum AirError {
    /// Out of memory.
    #[error("out of memory")]
    Memory,
    /// An assertion does not hold on a row.
    #[error("constraint failed at row {row}")]
    Assertion {
        /// The first row on which it fails.
        row: usize,
    },
    /// A layout disagrees with an AIR.
    #[error("{part}: layout says {actual}, the AIR has {expected}")]
    LayoutMismatch {
        /// The part that differs.
        part: LayoutPart,
        /// The AIR's number.
        expected: usize,
        /// The layout's number.
        actual: usize,
    },
    /// A degree is above `usize::MAX`.
    #[error("degree does not fit usize")]
    DegreeOverflow,
}

impl From<AllocError> for AirError {
    ghost use Rattle.std.specs.Prelude.{◌≡◌};
    ghost use Rattle.air_expressions.specs.declared.error.AirError.TheVariants.{Memory};

    ghost from_gives = { λ _ e. e ≡ Memory };

    fn from(_error: AllocError) -> AirError {
        AirError::Memory
    }
}

impl<T: Drop> From<AllocFailed<T>> for AirError {
    ghost use Rattle.std.specs.Prelude.{◌≡◌};
    ghost use Rattle.air_expressions.specs.declared.error.AirError.TheVariants.{Memory};

    ghost from_gives = { λ _ e. e ≡ Memory };

    fn from(_error: AllocFailed<T>) -> AirError {
        AirError::Memory
    }
}
