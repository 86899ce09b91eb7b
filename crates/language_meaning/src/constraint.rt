//! Constraints of names as expressions over a field.
ghost use Rattle.std.specs.Prelude.{◌≡◌, IfOk, map};
ghost use Rattle.air_expressions.specs.Tree.{tree_of};
ghost use Rattle.field.specs.Ring.{of_nat};
ghost use Rattle.language_meaning.specs.Columns.{constraints_in};
ghost use Rattle.language_meaning.specs.Lookups.{constraint_of};

use crate::expression::expression_of;
use crate::value::Value;
use air_expressions::SymbolicExpression;
use field::PrimeCharacteristicRing;
use std::alloc::{AllocError, Global};

/// An expression that has to be zero on every row.
#[derive(Debug, Drop)]
pub struct NamedConstraint {
    /// The byte at which its item begins.
    pub at: usize,
    /// The expression; that of `assert bool` is multiplied out.
    pub value: Value,
}

/// Constraints of a text over a field, in their order.
///
/// Fails only when out of memory.
pub fn constraints_over<F: PrimeCharacteristicRing>(
    alloc: Global,
    named: &[NamedConstraint],
) -> Result<Vec<SymbolicExpression<F>>, AllocError>
    ensures { IfOk result (λ v. map tree_of v.items
        ≡ constraints_in (of_nat F.ring) (map constraint_of named.now)) }
{
    let mut constraints = Vec::new(alloc);
    for constraint in named {
        constraints.push(expression_of(alloc, &constraint.value)?)?;
    }
    Ok(constraints)
}
