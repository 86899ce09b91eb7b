//! What a prover makes of a batch.

use crate::types::LookupTerminal;
use matrix::RowMajorMatrix;

/// An auxiliary trace and an optional terminal for each AIR of a batch.
#[derive(Debug, Drop)]
pub struct Witness<EF> {
    /// The auxiliary traces, AIR by AIR: an accumulator and a fraction for each lookup, or width 0
    /// without lookups.
    pub aux: Vec<RowMajorMatrix<EF>>,
    /// The terminals, AIR by AIR; an AIR without lookups has none.
    pub terminals: Vec<Option<LookupTerminal<EF>>>,
}
