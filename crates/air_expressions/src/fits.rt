//! Whether an expression stays within a layout.
ghost use Rattle.std.specs.Prelude.{◌↔◌, IsTrue};
ghost use Rattle.air_expressions.specs.Layout.{EntryFits, LeafFits, Fits};
ghost use Rattle.air_expressions.specs.Tree.{tree_of};

use crate::base_expression::{BaseLeaf, SymbolicExpression};
use crate::layout::AirLayout;
use crate::variable::{BaseEntry, SymbolicVariable};

impl<F> SymbolicExpression<F> {
    /// Whether every variable has offset 0 or 1, and an index below the layout's width or number
    /// of public values.
    pub fn fits(&self, layout: &AirLayout) -> bool
        ensures { IsTrue result ↔ Fits layout.now (tree_of self.now) }
    {
        match self {
            SymbolicExpression::Leaf(leaf) => leaf_fits(leaf, layout),
            SymbolicExpression::Add(a, b)
            | SymbolicExpression::Sub(a, b)
            | SymbolicExpression::Mul(a, b) => a.fits(layout) && b.fits(layout),
            SymbolicExpression::Neg(a) => a.fits(layout),
        }
    }
}

fn leaf_fits<F>(leaf: &BaseLeaf<F>, layout: &AirLayout) -> bool
    ensures { IsTrue result ↔ LeafFits layout.now leaf.now }
{
    match leaf {
        BaseLeaf::Variable(variable) => variable_fits(variable, layout),
        BaseLeaf::IsFirstRow
        | BaseLeaf::IsLastRow
        | BaseLeaf::IsTransition
        | BaseLeaf::Constant(_) => true,
    }
}

fn variable_fits<F>(variable: &SymbolicVariable<F>, layout: &AirLayout) -> bool
    ensures { IsTrue result ↔ EntryFits layout.now variable.now.entry variable.now.index }
{
    match variable.entry {
        BaseEntry::Preprocessed { offset } => {
            offset <= 1 && variable.index < layout.preprocessed_width
        }
        BaseEntry::Main { offset } => offset <= 1 && variable.index < layout.main_width,
        BaseEntry::Public => variable.index < layout.num_public_values,
    }
}
