//! Values as expressions over a field.
ghost use Rattle.std.specs.Prelude.{◌≡◌, IfOk};
ghost use Rattle.air_expressions.specs.Tree.{tree_of};
ghost use Rattle.field.specs.Ring.{of_nat};
ghost use Rattle.language_meaning.specs.Values.{meant_of};
ghost use Rattle.language_meaning.specs.Expressions.{cell_in, tree_in};

use crate::value::Value;
use air_expressions::{BaseEntry, BaseLeaf, SymbolicExpression, SymbolicVariable};
use field::PrimeCharacteristicRing;
use std::alloc::{AllocError, Global};

/// A value as an expression. A number is so many times one.
///
/// Fails only when out of memory.
pub fn expression_of<F: PrimeCharacteristicRing>(
    alloc: Global,
    value: &Value,
) -> Result<SymbolicExpression<F>, AllocError>
    ensures { IfOk result (λ r. tree_of r
        ≡ tree_in (of_nat F.ring) (meant_of value.now)) }
{
    match value {
        Value::Main { offset, column } => Ok(cell(BaseEntry::Main { offset: *offset }, *column)),
        Value::Preprocessed { offset, column } => {
            Ok(cell(BaseEntry::Preprocessed { offset: *offset }, *column))
        }
        Value::Public(index) => Ok(cell(BaseEntry::Public, *index)),
        Value::FirstRow => Ok(SymbolicExpression::Leaf(BaseLeaf::IsFirstRow)),
        Value::LastRow => Ok(SymbolicExpression::Leaf(BaseLeaf::IsLastRow)),
        Value::Transition => Ok(SymbolicExpression::Leaf(BaseLeaf::IsTransition)),
        Value::Number(number) => {
            Ok(SymbolicExpression::Leaf(BaseLeaf::Constant(F::from_u64(*number))))
        }
        Value::Negative(inner) => {
            let inner = expression_of(alloc, inner)?;
            Ok(SymbolicExpression::Neg(Box::new(alloc, inner)?))
        }
        Value::Sum(left, right) => {
            let left = expression_of(alloc, left)?;
            let right = expression_of(alloc, right)?;
            Ok(SymbolicExpression::Add(Box::new(alloc, left)?, Box::new(alloc, right)?))
        }
        Value::Difference(left, right) => {
            let left = expression_of(alloc, left)?;
            let right = expression_of(alloc, right)?;
            Ok(SymbolicExpression::Sub(Box::new(alloc, left)?, Box::new(alloc, right)?))
        }
        Value::Product(left, right) => {
            let left = expression_of(alloc, left)?;
            let right = expression_of(alloc, right)?;
            Ok(SymbolicExpression::Mul(Box::new(alloc, left)?, Box::new(alloc, right)?))
        }
    }
}

/// A cell of a window, or a public value.
fn cell<F>(entry: BaseEntry, index: usize) -> SymbolicExpression<F>
    ensures { tree_of result ≡ cell_in entry index }
{
    SymbolicExpression::Leaf(BaseLeaf::Variable(SymbolicVariable::new(entry, index)))
}
