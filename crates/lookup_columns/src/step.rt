//! Expressions as lists of steps.
ghost use Rattle.std.specs.Prelude.{◌≡◌, ◌++◌, All, IfOk, OnOk};
ghost use Rattle.std.specs.List.{AllZip};
ghost use Rattle.air_expressions.specs.Layout.{Fits};
ghost use Rattle.air_expressions.specs.Tree.{tree_of};
ghost use Rattle.air_expressions.specs.declared.layout.AirLayout.{AirLayout};
ghost use Rattle.lookup_columns.specs.Steps.{AreStepsOf, StepsFit, steps_in_order};
ghost use Rattle.lookup_model.specs.Records.{AllFit};

use air::{BaseLeaf, SymbolicExpression};
use field::Field;
use std::alloc::{AllocError, Global};

/// One step of evaluating an expression, over a stack of slots.
#[derive(Clone, Copy)]
pub enum Step<F> {
    /// A leaf, in one more slot.
    Leaf(BaseLeaf<F>),
    /// The sum of the last two slots, in place of both.
    Add,
    /// The last slot but one minus the last one, in place of both.
    Sub,
    /// The product of the last two slots, in place of both.
    Mul,
    /// The negative of the last slot, in its place.
    Neg,
}

/// Appends the steps of an expression.
fn push_steps<F: Field>(
    to: &mut Vec<Step<F>>,
    expression: &SymbolicExpression<F>,
) -> Result<(), AllocError>
    ensures { OnOk result (to.new.items ≡ to.old.items ++ steps_in_order (tree_of expression.now)) }
{
    let last = match expression {
        SymbolicExpression::Leaf(leaf) => Step::Leaf(*leaf),
        SymbolicExpression::Add(a, b) => {
            push_steps(to, a)?;
            push_steps(to, b)?;
            Step::Add
        }
        SymbolicExpression::Sub(a, b) => {
            push_steps(to, a)?;
            push_steps(to, b)?;
            Step::Sub
        }
        SymbolicExpression::Mul(a, b) => {
            push_steps(to, a)?;
            push_steps(to, b)?;
            Step::Mul
        }
        SymbolicExpression::Neg(a) => {
            push_steps(to, a)?;
            Step::Neg
        }
    };
    to.push(last)?;
    Ok(())
}

/// The steps of an expression: those of its parts, and then its own operation. Fails only when out of
/// memory.
pub fn steps_of<F: Field>(
    alloc: Global,
    expression: &SymbolicExpression<F>,
) -> Result<Vec<Step<F>>, AllocError>
    ensures steps { IfOk result (λ v. AreStepsOf v expression.now) }
    ensures fit { (layout : AirLayout) → Fits layout (tree_of expression.now)
        → IfOk result (StepsFit layout) }
{
    let mut steps = Vec::new(alloc);
    push_steps(&mut steps, expression)?;
    Ok(steps)
}

/// The steps of each of these expressions, in their order. Fails only when out of memory.
pub fn steps_of_each<F: Field>(
    alloc: Global,
    expressions: &[SymbolicExpression<F>],
) -> Result<Vec<Vec<Step<F>>>, AllocError>
    ensures steps { IfOk result (λ v. AllZip AreStepsOf v.items expressions.now) }
    ensures fit { (layout : AirLayout) → AllFit layout expressions.now
        → IfOk result (λ v. All (StepsFit layout) v.items) }
{
    let mut all = Vec::with_capacity(alloc, expressions.len())?;
    for expression in expressions {
        all.push(steps_of(alloc, expression)?)?;
    }
    Ok(all)
}
