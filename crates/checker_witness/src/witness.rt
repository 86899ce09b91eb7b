//! Whether a witness of a batch is accepted.
ghost use Rattle.std.specs.Prelude.{◌≡◌, length};
ghost use Rattle.std.specs.List.{zip};
ghost use Rattle.lookup_model.specs.Challenges.{table_of};
ghost use Rattle.checker_witness.specs.Answers.{AreReady, ChecksWitness, PassesOnlyPlain, RefusesUnaccepted};
ghost use Rattle.lookup_model.specs.Batches.Instances.{HasPrefixes, IsFitting, instance_of, instances_of};
ghost use Rattle.air.specs.Traces.{height_of};
ghost use Rattle.checker_witness.specs.Ranges.{ChecksResult};
ghost use Rattle.lookup_generation.specs.Ranges.{AreEnds};

use crate::columns::check_in_columns;
use crate::rows::columns_hold_until;
use crate::shape::check_shape;
use field::{ExtensionField, Field, Over};
use lookup::{Challenges, LogUpGadget, LookupError, LookupProtocol, LookupTerminal};
use lookup_model::BatchInstance;
use matrix::RowMajorMatrix;
use std::alloc::Global;

/// Whether a witness is accepted: it satisfies the constraints of all lookups on every row, and its
/// terminals sum to zero. If all flags are lawful and no denominator vanishes, only the witness of
/// `generate_batch` can be.
///
/// Requires instances that fit (`instances_fit`), with ids below the number of prefixes, and an
/// auxiliary trace and an optional terminal for each of them. Refuses the first of these, AIR by AIR
/// and then for all:
///
/// - `TerminalPresenceMismatch`: there is no terminal although there are lookups, or the other way
///   round;
/// - `PermutationWidthMismatch`: the width of the auxiliary trace is not the number of lookups plus one,
///   or not zero without lookups;
/// - `PermutationHeightMismatch`: with lookups, it does not have the height of the main trace;
/// - `ConstraintFailed`: a constraint is not zero on a row, of which the first is named;
/// - `TerminalSumNonZero`: the terminals do not sum to zero.
///
/// Also fails when out of memory.
pub fn check_witness<F: Field, EF: ExtensionField<F>>(
    alloc: Global,
    instances: &[BatchInstance<'_, F>],
    challenges: &Challenges<EF>,
    aux: &[RowMajorMatrix<EF>],
    terminals: &[Option<LookupTerminal<EF>>],
) -> Result<(), LookupError>
    requires ready { AreReady challenges.now instances.now }
    requires parts { (length aux.now ≡ length instances.now)
        × (length terminals.now ≡ length instances.now) }
    ensures answer { ChecksWitness ⟦<EF as Over<F>>⟧.fields (table_of challenges.now)
        (instances_of instances.now) (zip aux.now terminals.now) result }
    ensures refusal { RefusesUnaccepted ⟦<EF as Over<F>>⟧.fields (table_of challenges.now)
        (instances_of instances.now) (zip aux.now terminals.now) result }
    ensures only { PassesOnlyPlain ⟦<EF as Over<F>>⟧.fields (table_of challenges.now)
        (instances_of instances.now) (zip aux.now terminals.now) result }
{
    for air in 0..instances.len() {
        check_result(
            alloc,
            air,
            &instances[air],
            challenges,
            &aux[air],
            &terminals[air],
        )?;
    }
    LogUpGadget::new().verify_terminal_sum(terminals)
}

/// Whether the result of one AIR, number `air` of its batch, satisfies its constraints: the part of
/// [`check_witness`] for this AIR, with its refusals.
///
/// So a batch can be checked AIR by AIR, without a list of its instances:
/// [`results_join`](crate::results_join) says how the answers join. Requires an instance that fits
/// (`instance_fits`), with ids below the number of prefixes. Also fails when out of memory.
pub fn check_result<F: Field, EF: ExtensionField<F>>(
    alloc: Global,
    air: usize,
    instance: &BatchInstance<'_, F>,
    challenges: &Challenges<EF>,
    aux: &RowMajorMatrix<EF>,
    terminal: &Option<LookupTerminal<EF>>,
) -> Result<(), LookupError>
    requires fit { IsFitting (instance_of instance.now) }
    requires ids { HasPrefixes challenges.now instance.now }
    ensures { ChecksResult ⟦<EF as Over<F>>⟧.fields (table_of challenges.now) air
        (instance_of instance.now) (aux.now, terminal.now) result }
{
    let columns = challenges.for_columns(alloc, instance.ids)?;
    check_in_columns(alloc, air, instance, &columns, aux, terminal)
}

/// Whether the result of one AIR, number `air` of its batch, satisfies its constraints, where its rows are
/// checked in ranges: the first range ends at the first of `ends`, and each further one follows on the one
/// before.
///
/// `ends` do not decrease, and the last of them is the height. Whatever they are, the answer is that of
/// [`check_witness`] for this AIR. The shape is checked once, by [`check_shape`], and each range by
/// [`columns_hold_until`], as others may do elsewhere: that this is enough is the
/// contract of [`checks_join`](crate::checks_join). Also fails when out of memory.
pub fn check_in_ranges<F: Field, EF: ExtensionField<F>>(
    alloc: Global,
    air: usize,
    instance: &BatchInstance<'_, F>,
    challenges: &Challenges<EF>,
    aux: &RowMajorMatrix<EF>,
    terminal: &Option<LookupTerminal<EF>>,
    ends: &[usize],
) -> Result<(), LookupError>
    requires fit { IsFitting (instance_of instance.now) }
    requires ids { HasPrefixes challenges.now instance.now }
    requires ends { AreEnds 0 ends.now (height_of (instance_of instance.now).traces) }
    ensures { ChecksResult ⟦<EF as Over<F>>⟧.fields (table_of challenges.now) air
        (instance_of instance.now) (aux.now, terminal.now) result }
{
    check_shape(air, instance, aux, terminal)?;
    let columns = challenges.for_columns(alloc, instance.ids)?;
    let mut first = 0;
    for end in ends {
        let row = columns_hold_until(alloc, instance, &columns, aux, terminal, first, *end)?;
        if row < *end {
            return Err(LookupError::ConstraintFailed { air, row });
        }
        first = *end;
    }
    Ok(())
}
