//! A lookup on a builder's row, and its expressions there.
ghost use Rattle.std.specs.Prelude.{IfOk};
ghost use Rattle.air_expressions.specs.Layout.{Fits};
ghost use Rattle.air_expressions.specs.Tree.{tree_of};
ghost use Rattle.lookup_constraints.specs.internal.Meanings.{MeansOn, tuple_meaning, denominator_meaning, lifted_meaning};
ghost use Rattle.lookup_constraints.specs.internal.Rows.{IsLookupRow};
ghost use Rattle.lookup_model.specs.Records.{AllFit};

use air_expressions::{
    BuilderView, Expression, PermutationAirBuilder, SymbolicExpression, resolve_over,
};
use field::{Over, PrimeCharacteristicRing};
use lookup_model::Lookup;
use std::alloc::{AllocError, Global};

/// A lookup on a builder's row: the builder and its main window, and the challenges of the lookup's
/// column.
#[derive(Drop)]
pub(crate) struct LookupRow<'a, AB: PermutationAirBuilder> {
    pub(crate) builder: &'a AB,
    pub(crate) main: &'a AB::MainWindow,
    pub(crate) lookup: &'a Lookup<AB::F>,
    pub(crate) alpha: &'a AB::ExprEF,
    pub(crate) beta: &'a AB::ExprEF,
}

/// The expression over the builder's variables, lifted to the extension.
pub(crate) fn lift_expression<AB: PermutationAirBuilder>(
    alloc: Global,
    row: &LookupRow<'_, AB>,
    expression: &SymbolicExpression<AB::F>,
) -> Result<AB::ExprEF, AllocError>
    requires row { IsLookupRow AB.AirBuilder AB.MainWindow.WindowAccess ⟦<AB as BuilderView>⟧
        ⟦<AB::EF as Over<AB::F>>⟧.fields row.now }
    requires fits { Fits (AB.layout row.now.builder.now) (tree_of expression.now) }
    ensures { IfOk result (MeansOn ⟦<AB as BuilderView>⟧ row.now.builder.now
        (lifted_meaning ⟦<AB::EF as Over<AB::F>>⟧.fields expression.now)) }
{
    Ok(AB::lift(resolve_over(alloc, expression, row.builder, row.main)?))
}

/// The tuple over the builder's variables, combined with beta by Horner's rule.
fn combined_tuple<AB: PermutationAirBuilder>(
    alloc: Global,
    row: &LookupRow<'_, AB>,
    tuple: &[SymbolicExpression<AB::F>],
) -> Result<AB::ExprEF, AllocError>
    requires row { IsLookupRow AB.AirBuilder AB.MainWindow.WindowAccess ⟦<AB as BuilderView>⟧
        ⟦<AB::EF as Over<AB::F>>⟧.fields row.now }
    requires fits { AllFit (AB.layout row.now.builder.now) tuple.now }
    ensures { IfOk result (MeansOn ⟦<AB as BuilderView>⟧ row.now.builder.now
        (tuple_meaning ⟦<AB::EF as Over<AB::F>>⟧.fields row.now.lookup.now.column tuple.now)) }
{
    let mut sum = AB::ExprEF::constant(AB::EF::ZERO);
    for element in tuple {
        let raised = row.beta.copy(alloc)?.mul(alloc, sum)?;
        sum = lift_expression(alloc, row, element)?.add(alloc, raised)?;
    }
    Ok(sum)
}

/// The denominator of the tuple: `alpha - combined tuple`.
///
/// Generation has a body of its own, `denominators_of` of `lookup_columns`: it combines whole columns
/// of values, by powers of beta that all rows share, and makes no expression.
pub(crate) fn denominator<AB: PermutationAirBuilder>(
    alloc: Global,
    row: &LookupRow<'_, AB>,
    tuple: &[SymbolicExpression<AB::F>],
) -> Result<AB::ExprEF, AllocError>
    requires row { IsLookupRow AB.AirBuilder AB.MainWindow.WindowAccess ⟦<AB as BuilderView>⟧
        ⟦<AB::EF as Over<AB::F>>⟧.fields row.now }
    requires fits { AllFit (AB.layout row.now.builder.now) tuple.now }
    ensures { IfOk result (MeansOn ⟦<AB as BuilderView>⟧ row.now.builder.now
        (denominator_meaning ⟦<AB::EF as Over<AB::F>>⟧.fields row.now.lookup.now.column tuple.now)) }
{
    let combined = combined_tuple(alloc, row, tuple)?;
    row.alpha.copy(alloc)?.sub(alloc, combined)
}
