//! The numerator and the denominator of an additive lookup.
ghost use Rattle.std.specs.Prelude.{IfOk};
ghost use Rattle.air_expressions.specs.Layout.{Fits};
ghost use Rattle.air_expressions.specs.Tree.{tree_of};
ghost use Rattle.lookup_constraints.specs.internal.Meanings.{MeansOn};
ghost use Rattle.lookup_constraints.specs.internal.Quotients.{AddsTuple, IsQuotient, additive_meaning};
ghost use Rattle.lookup_constraints.specs.internal.Rows.{IsLookupRow};
ghost use Rattle.lookup_model.specs.Records.{AllFit, HasEqualLengths};

use crate::quotient::{Quotient, add_fraction, zero_quotient};
use crate::row::{LookupRow, denominator, lift_expression};
use air_expressions::{BuilderView, PermutationAirBuilder, SymbolicExpression};
use field::Over;
use std::alloc::{AllocError, Global};

/// The quotient plus the fraction of one more tuple.
fn add_tuple<AB: PermutationAirBuilder>(
    alloc: Global,
    row: &LookupRow<'_, AB>,
    quotient: Quotient<AB::ExprEF>,
    tuple: &[SymbolicExpression<AB::F>],
    multiplicity: &SymbolicExpression<AB::F>,
) -> Result<Quotient<AB::ExprEF>, AllocError>
    requires row { IsLookupRow AB.AirBuilder AB.MainWindow.WindowAccess ⟦<AB as BuilderView>⟧
        ⟦<AB::EF as Over<AB::F>>⟧.fields row.now }
    requires tuple_fits { AllFit (AB.layout row.now.builder.now) tuple.now }
    requires multiplicity_fits { Fits (AB.layout row.now.builder.now) (tree_of multiplicity.now) }
    ensures { IfOk result (AddsTuple ⟦<AB as BuilderView>⟧ ⟦<AB::EF as Over<AB::F>>⟧.fields
        row.now.builder.now row.now.lookup.now.column quotient tuple.now multiplicity.now) }
{
    let denominator = denominator(alloc, row, tuple)?;
    let numerator = lift_expression(alloc, row, multiplicity)?;
    add_fraction(alloc, quotient, numerator, denominator)
}

/// `V / U`: U is the product of all denominators, V the sum of each multiplicity times the other
/// denominators.
pub(crate) fn additive_quotient<AB: PermutationAirBuilder>(
    alloc: Global,
    row: &LookupRow<'_, AB>,
) -> Result<Quotient<AB::ExprEF>, AllocError>
    requires row { IsLookupRow AB.AirBuilder AB.MainWindow.WindowAccess ⟦<AB as BuilderView>⟧
        ⟦<AB::EF as Over<AB::F>>⟧.fields row.now }
    requires lengths { HasEqualLengths row.now.lookup.now }
    ensures { IfOk result (IsQuotient (MeansOn ⟦<AB as BuilderView>⟧ row.now.builder.now)
        (additive_meaning ⟦<AB::EF as Over<AB::F>>⟧.fields row.now.lookup.now)) }
{
    let mut quotient = zero_quotient();
    for branch in 0..row.lookup.elements.len() {
        let tuple = &row.lookup.elements[branch];
        let multiplicity = &row.lookup.multiplicities[branch];
        quotient = add_tuple(alloc, row, quotient, tuple, multiplicity)?;
    }
    Ok(quotient)
}
