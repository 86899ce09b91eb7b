//! What constraints are checked on.

use matrix::RowMajorMatrix;

/// The traces, public values and challenges that constraints are checked on, all borrowed.
#[derive(Clone, Copy)]
pub struct RowInputs<'a, F, EF> {
    /// The main trace, whose height is the number of rows to check.
    pub main: &'a RowMajorMatrix<F>,
    /// The preprocessed trace, as high as the main trace or of width 0.
    pub preprocessed: Option<&'a RowMajorMatrix<F>>,
    /// The public values.
    pub public_values: &'a [F],
    /// The permutation trace, as high as the main trace or of width 0.
    pub permutation: &'a RowMajorMatrix<EF>,
    /// The challenges.
    pub challenges: &'a [EF],
    /// The values of the permutation argument, such as its terminals.
    pub permutation_values: &'a [EF],
}
