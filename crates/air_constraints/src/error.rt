//! Why there is no polynomial.
use std::alloc::AllocError;

/// Why there is no polynomial of an expression.
#[derive(Debug, Drop)]
pub enum PolynomialError {
    /// It has more terms than the limit, or so has a product of two sums on the way.
    Large,
    /// Memory ran out.
    Memory,
}

impl From<AllocError> for PolynomialError {
    fn from(_error: AllocError) -> PolynomialError {
        PolynomialError::Memory
    }
}
