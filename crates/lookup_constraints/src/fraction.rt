//! The quotient that one lookup's fraction has to be, and the constraint that says so.
ghost use Rattle.std.specs.Prelude.{◌≡◌, ◌+◌, ◌*◌, ◌<◌, ◌⊎◌, [], ◌∷◌, IfOk, MatchResult};
ghost use Rattle.air_expressions.specs.MainWindow.{IsMainWindow};
ghost use Rattle.lookup_constraints.specs.Asserted.{EvaluatesOn, IsConstraintOn};
ghost use Rattle.lookup_constraints.specs.Quotients.{IsLookupQuotient};
ghost use Rattle.lookup_model.specs.Constraints.{fraction_constraint};
ghost use Rattle.lookup_model.specs.Records.{HasEqualLengths, IsWithin};

use crate::additive::additive_quotient;
use crate::cells::{column_challenges, fraction_cell};
use crate::exclusive::exclusive_quotient;
use crate::quotient::{Quotient, fraction_equation};
use crate::row::LookupRow;
use air_expressions::{AirBuilder, AirError, BuilderView, ExtensionBuilder, PermutationAirBuilder};
use field::Over;
use lookup_model::Lookup;
use std::alloc::{AllocError, Global};

/// The quotient of a lookup on the builder's row, over the challenges of its column: `V / U` without
/// flags, and `N / D` with flags, which need not be lawful. The lookup's fraction `f` has to solve
/// `denominator * f = numerator`, and `eval_fraction` asserts just that. Nothing is divided here: the
/// denominator may be zero.
///
/// `main` is the main window that `builder.main` gives. Requires as many multiplicities and flags as
/// tuples, expressions within the builder's layout, and two challenges for each column up to the
/// lookup's own. The builder needs no permutation window. Fails only when out of memory.
pub fn quotient_of<AB: PermutationAirBuilder>(
    alloc: Global,
    builder: &AB,
    main: &AB::MainWindow,
    lookup: &Lookup<AB::F>,
) -> Result<Quotient<AB::ExprEF>, AllocError>
    requires lengths { HasEqualLengths lookup.now }
    requires fits { IsWithin (AB.layout builder.now) lookup.now }
    requires challenges { 2 * lookup.now.column + 1
        < (AB.layout builder.now).num_permutation_challenges }
    requires main { IsMainWindow AB.AirBuilder AB.MainWindow.WindowAccess builder.now main.now }
    ensures { IfOk result (IsLookupQuotient ⟦<AB as BuilderView>⟧
        ⟦<AB::EF as Over<AB::F>>⟧.fields builder.now lookup.now) }
{
    let (alpha, beta) = column_challenges(builder, lookup.column);
    let row = LookupRow {
        builder,
        main,
        lookup,
        alpha: &alpha,
        beta: &beta,
    };
    match &lookup.flags {
        None => additive_quotient(alloc, &row),
        Some(flags) => exclusive_quotient(alloc, &row, flags),
    }
}

/// The left side of the lookup's equation.
fn fraction_expression<AB: PermutationAirBuilder>(
    alloc: Global,
    builder: &AB,
    lookup: &Lookup<AB::F>,
) -> Result<AB::ExprEF, AirError>
    requires lengths { HasEqualLengths lookup.now }
    requires fits { IsWithin (AB.layout builder.now) lookup.now }
    requires challenges { 2 * lookup.now.column + 1
        < (AB.layout builder.now).num_permutation_challenges }
    requires cell { lookup.now.column + 1 < (AB.layout builder.now).permutation_width }
    ensures { MatchResult result (IsConstraintOn ⟦<AB as BuilderView>⟧ builder.now
        (fraction_constraint ⟦<AB::EF as Over<AB::F>>⟧.fields lookup.now))
        (λ e. (e ≡ AirError.Memory) ⊎ AB.window_refuses builder.now e) }
{
    let main = builder.main(alloc)?;
    let permutation = builder.permutation(alloc)?;
    let quotient = quotient_of(alloc, builder, &main, lookup)?;
    let fraction = fraction_cell(builder, &permutation, lookup.column);
    Ok(fraction_equation(alloc, quotient, fraction)?)
}

/// Asserts the lookup's equation.
///
/// Refused for want of memory or of the builder's windows, before anything is asserted; or what the
/// builder refuses of the assertion.
pub fn eval_fraction<AB: PermutationAirBuilder>(
    alloc: Global,
    builder: &mut AB,
    lookup: &Lookup<AB::F>,
) -> Result<(), AirError>
    requires lengths { HasEqualLengths lookup.now }
    requires fits { IsWithin (AB.layout builder.old) lookup.now }
    requires challenges { 2 * lookup.now.column + 1
        < (AB.layout builder.old).num_permutation_challenges }
    requires cell { lookup.now.column + 1 < (AB.layout builder.old).permutation_width }
    ensures { EvaluatesOn ⟦<AB as BuilderView>⟧ builder.old
        (fraction_constraint ⟦<AB::EF as Over<AB::F>>⟧.fields lookup.now ∷ []) result builder.new }
{
    let constraint = fraction_expression(alloc, &*builder, lookup)?;
    builder.assert_zero_ext(alloc, constraint)
}
