//! Terms of polynomials in the cells of a row.
use air_expressions::SymbolicVariable;

/// A product of cells with a coefficient.
#[derive(Drop)]
pub struct Term<F> {
    /// The coefficient.
    pub coefficient: F,
    /// The cells, in order; one that is there twice is squared.
    pub cells: Vec<SymbolicVariable<F>>,
}
