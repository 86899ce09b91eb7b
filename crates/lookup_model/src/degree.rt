//! The degrees of the constraints of lookups.
ghost use Rattle.std.specs.Prelude.{◌≡◌, ◌+◌, None, Some, length, map, max};
ghost use Rattle.lookup_model.specs.LookupDegree.{IsDegree, constraint_degree_of, expression_degree, lookup_branch_degrees, lookup_degree, tuple_degree};
ghost use Rattle.lookup_model.specs.Records.{HasEqualLengths};

use crate::error::LookupError;
use crate::expression_degree::{degree_of, degree_of_tuple, sum_of_degrees};
use crate::sum_degrees::SumDegrees;
use crate::types::Lookup;
use air_expressions::SymbolicExpression;

/// The degree of the constraint of a lookup's fraction, if the transition selector has degree
/// `transition`.
///
/// Let `D_j` be the greatest degree of an element of tuple `j`, `m_j` the degree of its
/// multiplicity and `g_j` that of its flag. The degree is
///
/// - without flags: `max(1 + sum of D_j, max over i of (m_i + sum of D_j over the other j))`;
/// - with flags: `max(1 + max over j of (g_j + D_j, g_j), max over j of (g_j + m_j))`.
///
/// The maximum of nothing is 0.
///
/// Refuses `DegreeOverflow` if one of these sums does not fit `usize`. That is exactly when the
/// degree does not fit, since each of the sums is at most the degree.
pub fn constraint_degree<F>(lookup: &Lookup<F>, transition: usize) -> Result<usize, LookupError>
    requires { HasEqualLengths lookup.now }
    ensures { IsDegree result (lookup_degree transition lookup.now) }
{
    match &lookup.flags {
        None => additive_degree(lookup, transition),
        Some(flags) => exclusive_degree(lookup, flags, transition),
    }
}

/// The degree without flags.
fn additive_degree<F>(lookup: &Lookup<F>, transition: usize) -> Result<usize, LookupError>
    requires { HasEqualLengths lookup.now }
    ensures { IsDegree result (constraint_degree_of None
        (lookup_branch_degrees transition lookup.now)) }
{
    SumDegrees::of_lookup(lookup, transition)?.degree()
}

/// The degree with flags.
fn exclusive_degree<F>(
    lookup: &Lookup<F>,
    flags: &[SymbolicExpression<F>],
    transition: usize,
) -> Result<usize, LookupError>
    requires lengths { HasEqualLengths lookup.now }
    requires flag_number { length flags.now ≡ length lookup.now.elements.items }
    ensures { IsDegree result (constraint_degree_of
        (Some (map (expression_degree transition) flags.now))
        (lookup_branch_degrees transition lookup.now)) }
{
    let mut degree = 1;
    for branch in 0..flags.len() {
        let flag = &flags[branch];
        let tuple = &lookup.elements[branch];
        let multiplicity = &lookup.multiplicities[branch];
        degree = degree.max(branch_degree(flag, tuple, multiplicity, transition)?);
    }
    Ok(degree)
}

/// The degree of one branch with flags: the greater of the degree of flag times denominator times
/// fraction and that of flag times multiplicity.
fn branch_degree<F>(
    flag: &SymbolicExpression<F>,
    tuple: &[SymbolicExpression<F>],
    multiplicity: &SymbolicExpression<F>,
    transition: usize,
) -> Result<usize, LookupError>
    ensures { let flag = expression_degree transition flag.now in
        IsDegree result (max (1 + (flag + tuple_degree transition tuple.now))
        (flag + expression_degree transition multiplicity.now)) }
{
    let flag = degree_of(flag, transition)?;
    let denominator = sum_of_degrees(flag, degree_of_tuple(tuple, transition)?)?;
    let numerator = sum_of_degrees(flag, degree_of(multiplicity, transition)?)?;
    Ok(numerator.max(sum_of_degrees(1, denominator)?))
}
