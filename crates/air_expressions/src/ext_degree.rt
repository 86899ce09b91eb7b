//! The degrees of extension expressions.
ghost use Rattle.std.specs.Prelude.{◌≡◌, ◌^◌, ◌≤◌, MatchResult};
ghost use Rattle.air_expressions.specs.ExtDegree.{ext_degree_of};
ghost use Rattle.air_expressions.specs.ExtTree.{ext_tree_of, ext_leaf_tree};

use crate::degree::sum_of_degrees;
use crate::error::AirError;
use crate::ext_expression::{ExtLeaf, SymbolicExpressionExt};
use crate::variable::ExtEntry;

impl<F, EF> SymbolicExpressionExt<F, EF> {
    /// The degree, if the transition selector has degree 0.
    ///
    /// Refuses `DegreeOverflow` if it does not fit `usize`. Takes no memory.
    pub fn degree_multiple(&self) -> Result<usize, AirError>
        ensures { MatchResult result (λ d. d ≡ ext_degree_of 0 (ext_tree_of self.now))
            (λ e. (e ≡ AirError.DegreeOverflow)
            × (2 ^ 64 ≤ ext_degree_of 0 (ext_tree_of self.now))) }
    {
        self.degree_multiple_with_transition(0)
    }

    /// The degree, if the transition selector has degree `transition`.
    ///
    /// Refuses `DegreeOverflow` if it does not fit `usize`. Takes no memory.
    pub fn degree_multiple_with_transition(&self, transition: usize) -> Result<usize, AirError>
        ensures { MatchResult result (λ d. d ≡ ext_degree_of transition (ext_tree_of self.now))
            (λ e. (e ≡ AirError.DegreeOverflow)
            × (2 ^ 64 ≤ ext_degree_of transition (ext_tree_of self.now))) }
    {
        match self {
            SymbolicExpressionExt::Leaf(leaf) => degree_of_ext_leaf(leaf, transition),
            SymbolicExpressionExt::Add(a, b) | SymbolicExpressionExt::Sub(a, b) => {
                let left = a.degree_multiple_with_transition(transition)?;
                let right = b.degree_multiple_with_transition(transition)?;
                Ok(left.max(right))
            }
            SymbolicExpressionExt::Mul(a, b) => {
                let left = a.degree_multiple_with_transition(transition)?;
                let right = b.degree_multiple_with_transition(transition)?;
                sum_of_degrees(left, right)
            }
            SymbolicExpressionExt::Neg(a) => a.degree_multiple_with_transition(transition),
        }
    }
}

fn degree_of_ext_leaf<F, EF>(leaf: &ExtLeaf<F, EF>, transition: usize) -> Result<usize, AirError>
    ensures { MatchResult result (λ d. d ≡ ext_degree_of transition (ext_leaf_tree leaf.now))
        (λ e. (e ≡ AirError.DegreeOverflow)
        × (2 ^ 64 ≤ ext_degree_of transition (ext_leaf_tree leaf.now))) }
{
    match leaf {
        ExtLeaf::Base(expression) => expression.degree_multiple_with_transition(transition),
        ExtLeaf::Variable(variable) => match variable.entry {
            ExtEntry::Permutation { .. } => Ok(1),
            ExtEntry::Challenge | ExtEntry::PermutationValue => Ok(0),
        },
        ExtLeaf::Constant(_) => Ok(0),
    }
}
