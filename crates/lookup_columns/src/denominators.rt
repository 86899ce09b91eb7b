//! The denominators of a tuple on some rows.
ghost use Rattle.std.specs.Prelude.{◌≡◌, ◌<◌, ◌-◌, ◌++◌, All, IfOk, List, OnOk, drop, length, map};
ghost use Rattle.std.specs.List.{AllZip, zip};
ghost use Rattle.field.specs.Ring.{sub_in};
ghost use Rattle.air_expressions.specs.declared.base_expression.SymbolicExpression.{SymbolicExpression};
ghost use Rattle.lookup_columns.specs.Columns.{tuple_denominators};
ghost use Rattle.lookup_columns.specs.Steps.{AreStepsOf, StepsFit};
ghost use Rattle.air.specs.Traces.{height_of, layout_of, traces_of, window_of};

use crate::column::{column_of, push_alike};
use crate::columns::ColumnInputs;
use crate::memory::ColumnMemory;
use crate::step::Step;
use field::{Domain, ExtensionDomain, Field};
use std::alloc::{AllocError, Global};

/// Takes `power * x` off each element, where `x` stands beside it in `column`.
fn lessen<F: Field, EF: ExtensionDomain<F>>(elements: &mut [EF], power: EF, column: &[F])
    ensures { length elements.old ≡ length column.now → elements.new ≡ map
        (λ p. sub_in EF.ring p.0 (EF.ring.mul power (EF.embed p.1)))
        (zip elements.old column.now) }
{
    let many = elements.len().min(column.len());
    for i in 0..many {
        elements[i] = elements[i].minus_scaled(power, column[i]);
    }
}

/// Appends `alpha - x` for each `x`.
fn push_less<F: Field, EF: ExtensionDomain<F>>(
    to: &mut Vec<EF>,
    alpha: EF,
    column: &[F],
) -> Result<(), AllocError>
    ensures { OnOk result (to.new.items ≡ to.old.items ++ map
        (λ x. sub_in EF.ring alpha (EF.embed x)) column.now) }
{
    to.extend(column.iter().map(|x| alpha - EF::embed(*x)))
}

/// The denominators of the last element of a tuple alone, or of no element if it has none.
fn last_denominators<F: Field, EF: ExtensionDomain<F>>(
    alloc: Global,
    memory: &mut ColumnMemory<F, EF>,
    tuple: &[Vec<Step<F>>],
    inputs: &ColumnInputs<'_, F, EF>,
    rows: &[usize],
    alpha: EF,
) -> Result<Vec<EF>, AllocError>
    requires fits { All (StepsFit (layout_of (traces_of inputs.now.traces.now))) tuple.now }
    requires rows_exist { All (λ r. r < height_of (traces_of inputs.now.traces.now)) rows.now }
    ensures { (expressions : List (SymbolicExpression F)) → AllZip AreStepsOf tuple.now expressions
        → (beta : EF) → IfOk result (λ v. v.items ≡ tuple_denominators F.ring EF.ring EF.embed
        (window_of (traces_of inputs.now.traces.now)) alpha beta rows.now
        (drop (length tuple.now - 1) expressions)) }
{
    let room = inputs.rows.len();
    let mut denominators = memory.denominators.take(alloc, room)?;
    let many = tuple.len();
    if many == 0 {
        push_alike(&mut denominators, rows, alpha)?;
        Ok(denominators)
    } else {
        let steps = &tuple[many - 1];
        let column = column_of(alloc, &mut memory.slots, steps, inputs.traces, rows, room)?;
        push_less(&mut denominators, alpha, &column)?;
        memory.slots.put(column)?;
        Ok(denominators)
    }
}

/// The denominators of the tuple of these steps on rows of the traces of an AIR, in the order of
/// `rows`: `alpha - t`, where `t` is the tuple combined by `beta`, as in LogUp
/// (<https://eprint.iacr.org/2022/1530>).
///
/// The last element of a tuple has the factor 1, each one before it a power of `beta` more. The next
/// row of the last one is the first one. The lists that are filled have room for all rows of `inputs`.
/// The one that is returned can be put away in `memory` after use. Fails only when out of memory.
///
/// Constraints combine tuples as expressions of a builder, in `lookup_constraints`.
pub fn denominators_of<F: Field, EF: ExtensionDomain<F>>(
    alloc: Global,
    memory: &mut ColumnMemory<F, EF>,
    tuple: &[Vec<Step<F>>],
    inputs: &ColumnInputs<'_, F, EF>,
    rows: &[usize],
    alpha: EF,
    beta: EF,
) -> Result<Vec<EF>, AllocError>
    requires fits { All (StepsFit (layout_of (traces_of inputs.now.traces.now))) tuple.now }
    requires rows_exist { All (λ r. r < height_of (traces_of inputs.now.traces.now)) rows.now }
    ensures { (expressions : List (SymbolicExpression F)) → AllZip AreStepsOf tuple.now expressions
        → IfOk result (λ v. v.items ≡ tuple_denominators F.ring EF.ring EF.embed
        (window_of (traces_of inputs.now.traces.now)) alpha beta
        rows.now expressions) }
{
    let room = inputs.rows.len();
    let mut denominators = last_denominators(alloc, memory, tuple, inputs, rows, alpha)?;
    let mut power = beta;
    let mut left = tuple.len().saturating_sub(1);
    while left > 0 {
        left -= 1;
        let steps = &tuple[left];
        let column = column_of(alloc, &mut memory.slots, steps, inputs.traces, rows, room)?;
        lessen(&mut denominators, power, &column);
        memory.slots.put(column)?;
        power = power * beta;
    }
    Ok(denominators)
}
