//! The check of one AIR under given challenges.
ghost use Rattle.std.specs.Prelude.{◌<◌, ◌≤◌, ◌*◌, length};
ghost use Rattle.air.specs.Traces.{height_of, layout_of, traces_of};
ghost use Rattle.checker_witness.specs.Columns.{ChecksColumns, HasColumns};
ghost use Rattle.lookup_model.specs.Batches.Instances.{instance_of};
ghost use Rattle.lookup_model.specs.Records.{LookupsFit};

use crate::rows::columns_hold_until;
use crate::shape::check_shape;
use air::Traces;
use field::{ExtensionField, Field, Over};
use lookup::{Lookup, LookupError, LookupTerminal};
use lookup_model::BatchInstance;
use matrix::RowMajorMatrix;
use std::alloc::Global;

/// Whether the auxiliary trace and the terminal of one AIR, whoever made them, satisfy the constraints of
/// its lookups under an alpha and a beta for each; further challenges are ignored.
///
/// So the part of a witness can be checked that a prover made under challenges of its own, whatever ids it
/// has; [`check_witness`](crate::check_witness) takes them from a table by ids. That lookups on one bus
/// share an alpha and a beta and others do not, and that the terminals of a batch sum to zero, is for the
/// caller to see to. Where there are lookups, the terminal of what passes is the sum of all its fractions.
///
/// Requires lookups that fit the traces, and a row if there are lookups: without a row no constraint binds
/// the terminal. Refuses the first of these, where the AIR has number 0:
///
/// - `TerminalPresenceMismatch`, `PermutationWidthMismatch`, `PermutationHeightMismatch`, as
///   [`check_shape`] does;
/// - `ConstraintFailed`: a constraint is not zero on a row, of which the first is named.
///
/// Also fails when out of memory.
pub fn check_columns<F: Field, EF: ExtensionField<F>>(
    alloc: Global,
    traces: &Traces<'_, F>,
    lookups: &[Lookup<F>],
    challenges: &[EF],
    aux: &RowMajorMatrix<EF>,
    terminal: &Option<LookupTerminal<EF>>,
) -> Result<(), LookupError>
    requires fit { LookupsFit (layout_of (traces_of traces.now)) lookups.now }
    requires nonempty { 0 < length lookups.now → 0 < height_of (traces_of traces.now) }
    requires challenges { 2 * length lookups.now ≤ length challenges.now }
    ensures { ChecksColumns ⟦<EF as Over<F>>⟧.fields (traces_of traces.now) lookups.now
        challenges.now (aux.now, terminal.now) 0 result }
{
    let instance = BatchInstance {
        lookups,
        main: traces.main,
        preprocessed: traces.preprocessed,
        public_values: traces.public_values,
        ids: &[],
    };
    check_in_columns(alloc, 0, &instance, challenges, aux, terminal)
}

/// The same of AIR number `air` of a batch. The ids of the instance are ignored.
pub fn check_in_columns<F: Field, EF: ExtensionField<F>>(
    alloc: Global,
    air: usize,
    instance: &BatchInstance<'_, F>,
    challenges: &[EF],
    aux: &RowMajorMatrix<EF>,
    terminal: &Option<LookupTerminal<EF>>,
) -> Result<(), LookupError>
    requires columns { HasColumns (instance_of instance.now) challenges.now }
    requires nonempty { let i = instance_of instance.now in 0 < length i.lookups → 0 < height_of i.traces }
    ensures { let i = instance_of instance.now in
        ChecksColumns ⟦<EF as Over<F>>⟧.fields i.traces i.lookups challenges.now
        (aux.now, terminal.now) air result }
{
    check_shape(air, instance, aux, terminal)?;
    let height = instance.main.height();
    let row = columns_hold_until(alloc, instance, challenges, aux, terminal, 0, height)?;
    if row < height {
        return Err(LookupError::ConstraintFailed { air, row });
    }
    Ok(())
}
