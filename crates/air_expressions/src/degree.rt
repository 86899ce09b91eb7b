//! The degrees of base expressions.
ghost use Rattle.std.specs.Prelude.{◌≡◌, ◌+◌, ◌^◌, ◌≤◌, MatchResult};
ghost use Rattle.air_expressions.specs.Degree.{degree_of, leaf_degree};
ghost use Rattle.air_expressions.specs.Tree.{tree_of};

use crate::base_expression::{BaseLeaf, SymbolicExpression};
use crate::error::AirError;
use crate::variable::BaseEntry;

impl<F> SymbolicExpression<F> {
    /// The degree, if the transition selector has degree 0.
    ///
    /// Refuses `DegreeOverflow` if it does not fit `usize`. Takes no memory.
    pub fn degree_multiple(&self) -> Result<usize, AirError>
        ensures { MatchResult result (λ d. d ≡ degree_of 0 (tree_of self.now))
            (λ e. (e ≡ AirError.DegreeOverflow) × (2 ^ 64 ≤ degree_of 0 (tree_of self.now))) }
    {
        self.degree_multiple_with_transition(0)
    }

    /// The degree, if the transition selector has degree `transition`.
    ///
    /// Refuses `DegreeOverflow` if it does not fit `usize`. Takes no memory.
    pub fn degree_multiple_with_transition(&self, transition: usize) -> Result<usize, AirError>
        ensures { MatchResult result (λ d. d ≡ degree_of transition (tree_of self.now))
            (λ e. (e ≡ AirError.DegreeOverflow)
            × (2 ^ 64 ≤ degree_of transition (tree_of self.now))) }
    {
        match self {
            SymbolicExpression::Leaf(leaf) => Ok(degree_of_leaf(leaf, transition)),
            SymbolicExpression::Add(a, b) | SymbolicExpression::Sub(a, b) => {
                let left = a.degree_multiple_with_transition(transition)?;
                let right = b.degree_multiple_with_transition(transition)?;
                Ok(left.max(right))
            }
            SymbolicExpression::Mul(a, b) => {
                let left = a.degree_multiple_with_transition(transition)?;
                let right = b.degree_multiple_with_transition(transition)?;
                sum_of_degrees(left, right)
            }
            SymbolicExpression::Neg(a) => a.degree_multiple_with_transition(transition),
        }
    }
}

/// The sum of two degrees, if it fits.
pub(crate) fn sum_of_degrees(left: usize, right: usize) -> Result<usize, AirError>
    ensures { MatchResult result (λ d. d ≡ left + right)
        (λ e. (e ≡ AirError.DegreeOverflow) × (2 ^ 64 ≤ left + right)) }
{
    left.checked_add(right).ok_or(AirError::DegreeOverflow)
}

fn degree_of_leaf<F>(leaf: &BaseLeaf<F>, transition: usize) -> usize
    ensures { result ≡ leaf_degree transition leaf.now }
{
    match leaf {
        BaseLeaf::Variable(variable) => match variable.entry {
            BaseEntry::Preprocessed { .. } | BaseEntry::Main { .. } => 1,
            BaseEntry::Public => 0,
        },
        BaseLeaf::IsFirstRow | BaseLeaf::IsLastRow => 1,
        BaseLeaf::IsTransition => transition,
        BaseLeaf::Constant(_) => 0,
    }
}
