//! Whether some witness of a batch is accepted.
ghost use Rattle.std.specs.Prelude.{◌*◌, ◌+◌, ◌<◌, ◌≤◌, ◌∷◌, [], length};
ghost use Rattle.lookup_messages.specs.TraceBuilder.{builder_layout, ext_builder_window};
ghost use Rattle.lookup_model.specs.Challenges.{table_of};
ghost use Rattle.lookup_model.specs.Records.{HasEqualLengths, IsWithin, LookupsFit};
ghost use Rattle.lookup_model.specs.Batches.Instances.{HasPrefixes, IsFitting, instance_of, instances_of};
ghost use Rattle.lookup_model.specs.internal.Equations.{air_equations, equation_at, row_equations};
ghost use Rattle.lookup_model.specs.Batches.Existence.{DecidesAccepted};
ghost use Rattle.checker_witness.specs.Answers.{AreReady};
ghost use Rattle.checker_batches.specs.internal.Sums.{AddsEquations};

use crate::sums::Sums;
use air::{AirBuilder, Traces};
use field::{ExtensionField, Field, Over};
use lookup_constraints::quotient_of;
use lookup_messages::{LookupTraceBuilder, row_builder};
use lookup_model::{BatchInstance, Challenges, Lookup, LookupError};
use std::alloc::Global;

/// Whether some witness is accepted at these challenges, whoever makes it. Flags need not be lawful.
///
/// On each row each lookup has an equation for its fraction. No witness is accepted if one of them has
/// no solution; the first such equation ends the search, and no further one is looked at. Otherwise one
/// is if an equation is solved by every element, or if the fractions of all AIRs sum to zero.
///
/// Requires instances that fit (`instances_fit`), with ids below the number of prefixes. Fails only when
/// out of memory.
pub fn some_witness<F: Field, EF: ExtensionField<F>>(
    alloc: Global,
    instances: &[BatchInstance<'_, F>],
    challenges: &Challenges<EF>,
) -> Result<bool, LookupError>
    requires { AreReady challenges.now instances.now }
    ensures { DecidesAccepted ⟦<EF as Over<F>>⟧.fields (table_of challenges.now)
        (instances_of instances.now) result }
{
    let mut sums = Sums::of_none();
    for air in 0..instances.len() {
        if sums.is_nothing() {
            return Ok(false);
        }
        sums = with_air_equations(alloc, sums, &instances[air], challenges)?;
    }
    Ok(sums.has_zero())
}

/// The sums with the equations of one AIR.
fn with_air_equations<F: Field, EF: ExtensionField<F>>(
    alloc: Global,
    sums: Sums<EF>,
    instance: &BatchInstance<'_, F>,
    challenges: &Challenges<EF>,
) -> Result<Sums<EF>, LookupError>
    requires fit { IsFitting (instance_of instance.now) }
    requires ids { HasPrefixes challenges.now instance.now }
    ensures { AddsEquations EF.ring
        (air_equations ⟦<EF as Over<F>>⟧.fields (table_of challenges.now)
        (instance_of instance.now)) sums result }
{
    let columns = challenges.for_columns(alloc, instance.ids)?;
    let traces = Traces {
        main: instance.main,
        preprocessed: instance.preprocessed,
        public_values: instance.public_values,
    };
    let num_rows = instance.main.height();
    let mut so_far = sums;
    for row in 0..num_rows {
        if so_far.is_nothing() {
            return Ok(so_far);
        }
        let builder = row_builder(&traces, columns.as_slice(), num_rows, row);
        so_far = with_row_equations(alloc, so_far, &builder, instance.lookups)?;
    }
    Ok(so_far)
}

/// The sums with the equations of one row.
fn with_row_equations<F: Field, EF: ExtensionField<F>>(
    alloc: Global,
    sums: Sums<EF>,
    builder: &LookupTraceBuilder<'_, F, EF>,
    lookups: &[Lookup<F>],
) -> Result<Sums<EF>, LookupError>
    requires fit { LookupsFit (builder_layout builder.now) lookups.now }
    requires challenges { 2 * length lookups.now
        ≤ (builder_layout builder.now).num_permutation_challenges }
    ensures { AddsEquations EF.ring
        (row_equations ⟦<EF as Over<F>>⟧.fields (ext_builder_window builder.now) lookups.now)
        sums result }
{
    let mut so_far = sums;
    for lookup in lookups {
        if so_far.is_nothing() {
            return Ok(so_far);
        }
        so_far = with_lookup_equation(alloc, so_far, builder, lookup)?;
    }
    Ok(so_far)
}

/// The sums with the equation of one lookup on one row.
fn with_lookup_equation<F: Field, EF: ExtensionField<F>>(
    alloc: Global,
    sums: Sums<EF>,
    builder: &LookupTraceBuilder<'_, F, EF>,
    lookup: &Lookup<F>,
) -> Result<Sums<EF>, LookupError>
    requires lengths { HasEqualLengths lookup.now }
    requires within { IsWithin (builder_layout builder.now) lookup.now }
    requires challenges { 2 * lookup.now.column + 1
        < (builder_layout builder.now).num_permutation_challenges }
    ensures { AddsEquations EF.ring
        (equation_at ⟦<EF as Over<F>>⟧.fields (ext_builder_window builder.now) lookup.now ∷ [])
        sums result }
{
    let main = builder.main(alloc)?;
    let quotient = quotient_of(alloc, builder, &main, lookup)?;
    Ok(sums.plus(quotient.numerator, quotient.denominator))
}
