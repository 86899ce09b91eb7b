//! The degrees of expressions and tuples.
ghost use Rattle.std.specs.Prelude.{◌+◌};
ghost use Rattle.lookup_model.specs.LookupDegree.{IsDegree, expression_degree, tuple_degree};

use crate::error::LookupError;
use air_expressions::SymbolicExpression;

/// The greatest degree of an element, which is that of the tuple's denominator.
pub(crate) fn degree_of_tuple<F>(
    tuple: &[SymbolicExpression<F>],
    transition: usize,
) -> Result<usize, LookupError>
    ensures { IsDegree result (tuple_degree transition tuple.now) }
{
    let mut degree = 0;
    for element in tuple {
        degree = degree.max(degree_of(element, transition)?);
    }
    Ok(degree)
}

/// The degree of an expression, if it fits `usize`.
pub(crate) fn degree_of<F>(
    expression: &SymbolicExpression<F>,
    transition: usize,
) -> Result<usize, LookupError>
    ensures { IsDegree result (expression_degree transition expression.now) }
{
    Ok(expression.degree_multiple_with_transition(transition)?)
}

/// The sum, if it fits `usize`.
pub(crate) fn sum_of_degrees(left: usize, right: usize) -> Result<usize, LookupError>
    ensures { IsDegree result (left + right) }
{
    left.checked_add(right).ok_or(LookupError::DegreeOverflow)
}
