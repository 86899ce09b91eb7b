//! What the debug check is given of one AIR.

use lookup_model::Lookup;
use matrix::RowMajorMatrix;

/// The traces of one AIR and its lookups.
#[derive(Drop)]
pub struct LookupDebugInstance<'a, F> {
    /// The main trace.
    pub main_trace: &'a RowMajorMatrix<F>,
    /// The preprocessed trace, as high as the main trace.
    pub preprocessed_trace: Option<&'a RowMajorMatrix<F>>,
    /// The public values.
    pub public_values: &'a [F],
    /// The lookups.
    pub lookups: &'a [Lookup<F>],
    /// Challenges. No result depends on them.
    pub permutation_challenges: &'a [F],
}
