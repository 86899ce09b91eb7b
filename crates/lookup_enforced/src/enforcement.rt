//! What is shown of a lookup.

use air_constraints::RowKind;
use std::fmt;

/// What the constraints of an AIR are shown to enforce of one of its lookups, on all rows of traces of a height
/// on which they hold. What is not shown may still be so.
#[derive(Debug, Drop)]
pub struct Enforcement {
    /// Whether the flags of the lookup are shown to be lawful: each is 0 or 1, and at most one is 1. So it is of a
    /// lookup without flags.
    pub flags: bool,
    /// For each multiplicity a bound, if one is shown: it is a signed whole number times 1, whose absolute value is at
    /// most this.
    pub bounds: Vec<Option<u64>>,
    /// The first thing that is not shown of the flags, if something is not.
    pub missing: Option<Missing>,
}

/// What was not shown of the flags of a lookup.
#[derive(Clone, Copy, Debug, PartialEq, Eq)]
pub enum Missing {
    /// That a flag is 0 or 1 on rows of a kind.
    Flag {
        /// The index of the flag.
        flag: usize,
        /// The kind of rows.
        kind: RowKind,
    },
    /// That at most one flag is 1 on rows of a kind.
    Exclusive {
        /// The kind of rows.
        kind: RowKind,
    },
}

impl fmt::Display for Missing {
    fn fmt<W: fmt::Write>(&self, f: &mut fmt::Formatter<W>) -> fmt::Result {
        match self {
            Missing::Flag { flag, kind } => {
                let rows = rows_of(*kind);
                write!(f, "flag {flag} is not shown to be 0 or 1 on {rows}")
            }
            Missing::Exclusive { kind } => {
                let rows = rows_of(*kind);
                write!(f, "it is not shown that at most one flag is 1 on {rows}")
            }
        }
    }
}

/// Rows of a kind, in words.
fn rows_of(kind: RowKind) -> &'static str {
    match (kind.is_first, kind.is_last) {
        (true, true) => "the only row",
        (true, false) => "the first row",
        (false, true) => "the last row",
        (false, false) => "a row that is neither the first nor the last",
    }
}
