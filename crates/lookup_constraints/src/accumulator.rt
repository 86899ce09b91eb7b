//! The constraints of the accumulator.
ghost use Rattle.std.specs.Prelude.{◌≡◌, ◌+◌, ◌<◌, ◌⊎◌, All, IfErr, IfOk};
ghost use Rattle.lookup_constraints.specs.Asserted.{EvaluatesOn};
ghost use Rattle.lookup_constraints.specs.internal.Accumulators.{AreSides};
ghost use Rattle.lookup_constraints.specs.internal.Asserted.{AnswersSelected};
ghost use Rattle.lookup_constraints.specs.internal.Meanings.{Means, MeansOn, cell_meaning, meaning_of, minus};
ghost use Rattle.lookup_constraints.specs.internal.Windows.{IsPermutationWindow};
ghost use Rattle.lookup_model.specs.Constraints.{accumulator_constraints, fractions_at};

use crate::cells::{accumulator_cell, fraction_cell, next_accumulator_cell};
use air_expressions::{
    AirBuilder, AirError, BuilderView, Expression, ExtensionBuilder, PermutationAirBuilder,
};
use field::{Field, Over, PrimeCharacteristicRing};
use lookup_model::Lookup;
use std::alloc::{AllocError, Global};

/// The sum of the fractions of all lookups on the current row.
fn row_sum<AB: PermutationAirBuilder>(
    alloc: Global,
    builder: &AB,
    permutation: &AB::MP,
    lookups: &[Lookup<AB::F>],
) -> Result<AB::ExprEF, AllocError>
    requires window { IsPermutationWindow AB.layout AB.stands_for_ext AB.variable_ext
        AB.MP.WindowAccess builder.now permutation.now }
    requires cells { All (λ lookup. lookup.column + 1
        < (AB.layout builder.now).permutation_width) lookups.now }
    ensures { IfOk result (MeansOn ⟦<AB as BuilderView>⟧ builder.now
        (cell_meaning (fractions_at ⟦<AB::EF as Over<AB::F>>⟧.fields lookups.now))) }
{
    let mut sum = AB::ExprEF::constant(AB::EF::ZERO);
    for lookup in lookups {
        let fraction = fraction_cell(builder, permutation, lookup.column);
        sum = sum.add(alloc, fraction)?;
    }
    Ok(sum)
}

/// The left side of the equation `to = from + sum`: `to - from - sum`.
fn step_equation<K: Field, E: Expression<K>>(
    alloc: Global,
    to: E,
    from: &E,
    sum: &E,
) -> Result<E, AllocError>
    ensures { let of = meaning_of E.value E.degree in
        IfOk result (Means E.value E.degree
        (minus K.ring (minus K.ring (of to) (of from.now)) (of sum.now))) }
{
    to.sub(alloc, from.copy(alloc)?)?
        .sub(alloc, sum.copy(alloc)?)
}

/// The left sides of the accumulator's constraints: on the first row, on every row but the last,
/// and on the last row. The selectors are not yet applied.
#[derive(Drop)]
struct AccumulatorSides<E> {
    first: E,
    transition: E,
    last: E,
}

fn accumulator_sides<AB: PermutationAirBuilder>(
    alloc: Global,
    builder: &AB,
    lookups: &[Lookup<AB::F>],
    terminal: AB::ExprEF,
) -> Result<AccumulatorSides<AB::ExprEF>, AirError>
    requires row { 0 < (AB.layout builder.now).permutation_width }
    requires fractions { All (λ lookup. lookup.column + 1
        < (AB.layout builder.now).permutation_width) lookups.now }
    ensures sides { let view = ⟦<AB as BuilderView>⟧ in
        IfOk result (AreSides view ⟦<AB::EF as Over<AB::F>>⟧.fields builder.now lookups.now
        (meaning_of view.means view.degree terminal)) }
    ensures refused { IfErr result (λ e. (e ≡ AirError.Memory) ⊎ AB.window_refuses builder.now e) }
{
    let permutation = builder.permutation(alloc)?;
    let current = accumulator_cell(builder, &permutation);
    let next = next_accumulator_cell(builder, &permutation);
    let sum = row_sum(alloc, builder, &permutation, lookups)?;
    let transition = step_equation(alloc, next, &current, &sum)?;
    let last = step_equation(alloc, terminal, &current, &sum)?;
    Ok(AccumulatorSides {
        first: current,
        transition,
        last,
    })
}

/// Asserts that `x` is zero on the first row.
fn assert_first<AB: PermutationAirBuilder>(
    alloc: Global,
    builder: &mut AB,
    x: AB::ExprEF,
) -> Result<(), AirError>
    ensures { AnswersSelected ⟦<AB as BuilderView>⟧ ⟦<AB::EF as Over<AB::F>>⟧.fields
        (λ w. w.is_first) (λ t. 1) x builder.old result builder.new }
{
    builder.when_first_row().assert_zero_ext(alloc, x)
}

/// Asserts that `x` is zero on every row but the last.
fn assert_transition<AB: PermutationAirBuilder>(
    alloc: Global,
    builder: &mut AB,
    x: AB::ExprEF,
) -> Result<(), AirError>
    ensures { AnswersSelected ⟦<AB as BuilderView>⟧ ⟦<AB::EF as Over<AB::F>>⟧.fields
        (λ w. w.is_transition) (λ t. t) x builder.old result builder.new }
{
    builder.when_transition().assert_zero_ext(alloc, x)
}

/// Asserts that `x` is zero on the last row.
fn assert_last<AB: PermutationAirBuilder>(
    alloc: Global,
    builder: &mut AB,
    x: AB::ExprEF,
) -> Result<(), AirError>
    ensures { AnswersSelected ⟦<AB as BuilderView>⟧ ⟦<AB::EF as Over<AB::F>>⟧.fields
        (λ w. w.is_last) (λ t. 1) x builder.old result builder.new }
{
    builder.when_last_row().assert_zero_ext(alloc, x)
}

/// Asserts that the accumulator starts at zero, that the next one is this one plus the fractions of
/// the row, and that `terminal` is what comes after the last row. Asserts nothing without lookups.
///
/// Refused for want of memory or of the builder's windows, before anything is asserted; or at the first
/// assertion that the builder refuses. Those before it stay.
pub fn eval_accumulator<AB: PermutationAirBuilder>(
    alloc: Global,
    builder: &mut AB,
    lookups: &[Lookup<AB::F>],
    terminal: AB::ExprEF,
) -> Result<(), AirError>
    requires cells { All (λ lookup. lookup.column + 1
        < (AB.layout builder.old).permutation_width) lookups.now }
    ensures { let view = ⟦<AB as BuilderView>⟧ in EvaluatesOn view builder.old
        (accumulator_constraints ⟦<AB::EF as Over<AB::F>>⟧.fields lookups.now
        (view.means terminal) (view.degree terminal)) result builder.new }
{
    if lookups.is_empty() {
        return Ok(());
    }
    let sides = accumulator_sides(alloc, &*builder, lookups, terminal)?;
    assert_first(alloc, builder, sides.first)?;
    assert_transition(alloc, builder, sides.transition)?;
    assert_last(alloc, builder, sides.last)
}
