//! What is known of the cells of a row.
use crate::term::Term;
use air_expressions::SymbolicVariable;
use field::Field;
use std::alloc::Global;

/// A cell that is a sum of terms.
#[derive(Drop)]
pub struct Given<F> {
    /// The cell.
    pub cell: SymbolicVariable<F>,
    /// The terms of the sum.
    pub terms: Vec<Term<F>>,
}

/// What is known of the cells of a row.
#[derive(Drop)]
pub struct Facts<F> {
    /// Cells that are zero or one.
    pub bits: Vec<SymbolicVariable<F>>,
    /// Lists of cells, any two of which have the product zero.
    pub exclusive: Vec<Vec<SymbolicVariable<F>>>,
    /// Products of cells that are zero.
    pub zero_products: Vec<Vec<SymbolicVariable<F>>>,
    /// Cells that are sums of others.
    pub given: Vec<Given<F>>,
    /// Polynomials that are zero.
    pub zeros: Vec<Vec<Term<F>>>,
}

impl<F: Field> Facts<F> {
    ghost use Rattle.air_expressions.specs.Window.{Window};
    ghost use Rattle.air_constraints.specs.Facts.{AreSo};

    /// Nothing is known.
    pub(crate) fn nothing(alloc: Global) -> Self
        ensures { (w : Window F) → AreSo F.ring w result }
    {
        Facts {
            bits: Vec::new(alloc),
            exclusive: Vec::new(alloc),
            zero_products: Vec::new(alloc),
            given: Vec::new(alloc),
            zeros: Vec::new(alloc),
        }
    }
}
