//! The degrees of a sum of fractions, from which that of a constraint follows.
ghost use Rattle.std.specs.Prelude.{◌≡◌, ◌++◌, ◌∷◌, [], List, MatchResult, None};
ghost use Rattle.lookup_model.specs.LookupDegree.{BranchDegrees, IsDegree, branch_degrees, constraint_degree_of, lookup_branch_degrees};
ghost use Rattle.lookup_model.specs.SumDegrees.{AreSumDegrees, IsTooGreat};
ghost use Rattle.lookup_model.specs.Records.{HasEqualLengths};

use crate::error::LookupError;
use crate::expression_degree::{degree_of, degree_of_tuple, sum_of_degrees};
use crate::types::Lookup;
use air_expressions::SymbolicExpression;

/// The degrees of a sum of fractions over the product of all their denominators.
///
/// The degrees of two sums together follow from those of each. So each tuple is walked once,
/// however many lookups share a column.
#[derive(Clone, Copy)]
pub struct SumDegrees {
    denominator: usize,
    greatest: usize,
}

impl SumDegrees {
    /// The degrees of the empty sum.
    fn zero() -> Self
        ensures { AreSumDegrees [] result }
    {
        SumDegrees {
            denominator: 0,
            greatest: 0,
        }
    }

    /// The degrees of one fraction, a multiplicity over the denominator of a tuple.
    fn of_fraction<F>(
        tuple: &[SymbolicExpression<F>],
        multiplicity: &SymbolicExpression<F>,
        transition: usize,
    ) -> Result<Self, LookupError>
        ensures { let degrees = branch_degrees transition tuple.now multiplicity.now in
            MatchResult result (AreSumDegrees (degrees ∷ [])) (IsTooGreat (degrees ∷ [])) }
    {
        let denominator = degree_of_tuple(tuple, transition)?;
        let numerator = degree_of(multiplicity, transition)?;
        Ok(SumDegrees {
            denominator,
            greatest: denominator.max(numerator),
        })
    }

    /// The degrees of the sum of a lookup's fractions, its flags left out, if the transition selector
    /// has degree `transition`. Each expression is walked once.
    ///
    /// Refuses `DegreeOverflow`, exactly if one of them does not fit `usize`. Then the degree of the
    /// constraint does not fit, if the lookup has no flags.
    pub fn of_lookup<F>(lookup: &Lookup<F>, transition: usize) -> Result<Self, LookupError>
        requires { HasEqualLengths lookup.now }
        ensures { let degrees = lookup_branch_degrees transition lookup.now in
            MatchResult result (AreSumDegrees degrees) (IsTooGreat degrees) }
    {
        let mut sum = SumDegrees::zero();
        for branch in 0..lookup.elements.len() {
            let tuple = &lookup.elements[branch];
            let multiplicity = &lookup.multiplicities[branch];
            let next = SumDegrees::of_fraction(tuple, multiplicity, transition)?;
            sum = sum.plus(next)?;
        }
        Ok(sum)
    }

    /// The degrees of both sums together.
    ///
    /// Refuses `DegreeOverflow`, exactly if one of them does not fit `usize`. Then the degree of the
    /// constraint of both does not fit.
    pub fn plus(self, other: SumDegrees) -> Result<Self, LookupError>
        ensures { (first second : List BranchDegrees)
            → AreSumDegrees first self → AreSumDegrees second other
            → MatchResult result (AreSumDegrees (first ++ second)) (IsTooGreat (first ++ second)) }
    {
        let left = sum_of_degrees(self.greatest, other.denominator)?;
        let right = sum_of_degrees(other.greatest, self.denominator)?;
        Ok(SumDegrees {
            denominator: sum_of_degrees(self.denominator, other.denominator)?,
            greatest: left.max(right),
        })
    }

    /// The degree of the constraint that gives the sum as one fraction: that of the denominator
    /// times the fraction, or that of the numerator, whichever is greater.
    ///
    /// Refuses `DegreeOverflow` if it does not fit `usize`.
    pub fn degree(self) -> Result<usize, LookupError>
        ensures { (degrees : List BranchDegrees) → AreSumDegrees degrees self
            → IsDegree result (constraint_degree_of None degrees) }
    {
        Ok(self.greatest.max(sum_of_degrees(1, self.denominator)?))
    }
}
