//! One AIR of a batch.

use crate::types::Lookup;
use matrix::RowMajorMatrix;

/// One AIR of a batch: its lookups, each with the id of its bus, and its traces.
#[derive(Debug, Drop)]
pub struct BatchInstance<'a, F> {
    /// The lookups, in the order of their columns.
    pub lookups: &'a [Lookup<F>],
    /// The main trace.
    pub main: &'a RowMajorMatrix<F>,
    /// The preprocessed trace, as high as the main trace.
    pub preprocessed: Option<&'a RowMajorMatrix<F>>,
    /// The public values.
    pub public_values: &'a [F],
    /// The id of each lookup. Lookups on one bus share an id, each local lookup has its own.
    pub ids: &'a [usize],
}
