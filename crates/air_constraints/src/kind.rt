//! Kinds of rows.

/// A kind of row: whether it is the first one of a trace, and whether it is the last one. A row that is not the last
/// one has a next row.
#[derive(Clone, Copy, Debug, PartialEq, Eq)]
pub struct RowKind {
    /// Whether it is the first one.
    pub is_first: bool,
    /// Whether it is the last one.
    pub is_last: bool,
}
