//! What the columns of lookups are made from, and the columns of one tuple.
use air::Traces;

/// What the columns of lookups are made from.
#[derive(Drop)]
pub struct ColumnInputs<'a, F, EF> {
    /// The traces of the AIR.
    pub traces: &'a Traces<'a, F>,
    /// An alpha and a beta for each lookup of the AIR, in the order of their columns.
    pub challenges: &'a [EF],
    /// The rows, in the order in which the columns have them.
    pub rows: &'a [usize],
}

/// One tuple of a lookup on some rows.
#[derive(Drop)]
pub struct BranchColumns<F, EF> {
    /// The flag of each row, in an exclusive lookup.
    pub flags: Vec<F>,
    /// For each row whose flag is not zero, its index among these rows. The entries of other rows
    /// have no meaning. Only in an exclusive lookup.
    pub indices: Vec<usize>,
    /// The multiplicities, of each row or of each row whose flag is not zero.
    pub multiplicities: Vec<F>,
    /// The denominators of the same rows.
    pub denominators: Vec<EF>,
}
