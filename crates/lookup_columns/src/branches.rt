//! The values of lookups on some rows, a column at a time.
ghost use Rattle.std.specs.Prelude.{◌≡◌, ◌<◌, ℕ, All, IfOk, Some, length, slice_get};
ghost use Rattle.std.specs.List.{AllZip};
ghost use Rattle.lookup_columns.specs.ChunkColumns.{AreColumns, IsStored, StoreSelected, key_denominator_over};
ghost use Rattle.lookup_columns.specs.ColumnInputs.{AreColumnInputs};
ghost use Rattle.lookup_columns.specs.Steps.{AreStepsOf};
ghost use Rattle.air.specs.Traces.{height_of, layout_of, traces_of, window_of};
ghost use Rattle.lookup_model.specs.Message.{Message};
ghost use Rattle.lookup_model.specs.Records.{AllFit};
ghost use Rattle.lookup_model.specs.Sent.{branches_at, values};

use crate::column::column_of;
use crate::columns::{BranchColumns, ColumnInputs};
use crate::denominators::denominators_of;
use crate::lookup_steps::LookupSteps;
use crate::memory::ColumnMemory;
use crate::rows::selected_rows;
use air::SymbolicExpression;
use field::{ExtensionDomain, Field};
use lookup_model::Lookup;
use std::alloc::{AllocError, Global};

/// The multiplicities and denominators of a tuple of a lookup on these rows, without flags. The lists
/// have room for all rows of `inputs`.
fn branch_columns<F: Field, EF: ExtensionDomain<F>>(
    alloc: Global,
    memory: &mut ColumnMemory<F, EF>,
    inputs: &ColumnInputs<'_, F, EF>,
    rows: &[usize],
    lookup: &Lookup<F>,
    steps: &LookupSteps<F>,
    branch: usize,
) -> Result<BranchColumns<F, EF>, AllocError>
    requires inputs { AreColumnInputs inputs.now lookup.now steps.now }
    requires rows_exist { All (λ r. r < height_of (traces_of inputs.now.traces.now)) rows.now }
    requires branch_exists { branch < length lookup.now.elements.items }
    ensures { IfOk result (λ v. (index r : ℕ) (m : Message F)
        → slice_get rows.now index ≡ Some r
        → slice_get (branches_at F.ring (window_of (traces_of inputs.now.traces.now) r)
        lookup.now.column lookup.now) branch ≡ Some m
        → IsStored (key_denominator_over EF.ring EF.embed inputs.now.challenges.now) index v m) }
{
    let alpha = inputs.challenges[2 * lookup.column];
    let beta = inputs.challenges[2 * lookup.column + 1];
    let multiplicities = column_of(
        alloc,
        &mut memory.slots,
        &steps.multiplicities[branch],
        inputs.traces,
        rows,
        inputs.rows.len(),
    )?;
    let denominators = denominators_of(
        alloc,
        memory,
        &steps.elements[branch],
        inputs,
        rows,
        alpha,
        beta,
    )?;
    Ok(BranchColumns {
        flags: Vec::new(alloc),
        indices: Vec::new(alloc),
        multiplicities,
        denominators,
    })
}

/// The columns of each tuple of an additive lookup on these rows, in the order of its tuples.
fn additive_columns<F: Field, EF: ExtensionDomain<F>>(
    alloc: Global,
    memory: &mut ColumnMemory<F, EF>,
    inputs: &ColumnInputs<'_, F, EF>,
    lookup: &Lookup<F>,
    steps: &LookupSteps<F>,
) -> Result<Vec<BranchColumns<F, EF>>, AllocError>
    requires { AreColumnInputs inputs.now lookup.now steps.now }
    ensures { IfOk result (λ v. (index r : ℕ) → slice_get inputs.now.rows.now index ≡ Some r
        → AllZip (IsStored (key_denominator_over EF.ring EF.embed inputs.now.challenges.now) index)
        v.items (branches_at F.ring (window_of (traces_of inputs.now.traces.now) r)
        lookup.now.column lookup.now)) }
{
    let mut branches = memory.take_branches(alloc, lookup.elements.len())?;
    for branch in 0..lookup.elements.len() {
        let columns = branch_columns(alloc, memory, inputs, inputs.rows, lookup, steps, branch)?;
        branches.push(columns)?;
    }
    Ok(branches)
}

/// The columns of each tuple of an exclusive lookup, in the order of its tuples: its flag on these
/// rows, and its multiplicities and denominators on those of them whose flag is not zero.
fn exclusive_columns<F: Field, EF: ExtensionDomain<F>>(
    alloc: Global,
    memory: &mut ColumnMemory<F, EF>,
    inputs: &ColumnInputs<'_, F, EF>,
    lookup: &Lookup<F>,
    steps: &LookupSteps<F>,
    flags: &[SymbolicExpression<F>],
) -> Result<Vec<BranchColumns<F, EF>>, AllocError>
    requires inputs { AreColumnInputs inputs.now lookup.now steps.now }
    requires flag_steps { AllZip AreStepsOf steps.now.flags.items flags.now }
    requires flag_number { length flags.now ≡ length lookup.now.elements.items }
    requires flags_fit { AllFit (layout_of (traces_of inputs.now.traces.now)) flags.now }
    ensures { IfOk result (λ v. (index r : ℕ) → slice_get inputs.now.rows.now index ≡ Some r
        → let w = window_of (traces_of inputs.now.traces.now) r in
        StoreSelected F.ring (key_denominator_over EF.ring EF.embed inputs.now.challenges.now)
        index v.items (values F.ring w flags.now)
        (branches_at F.ring w lookup.now.column lookup.now)) }
{
    let mut branches = memory.take_branches(alloc, flags.len())?;
    for branch in 0..flags.len() {
        let column = column_of(
            alloc,
            &mut memory.slots,
            &steps.flags[branch],
            inputs.traces,
            inputs.rows,
            inputs.rows.len(),
        )?;
        let (indices, selected) = selected_rows(alloc, &mut memory.indices, &column, inputs.rows)?;
        let mut columns = branch_columns(alloc, memory, inputs, &selected, lookup, steps, branch)?;
        columns.flags = column;
        columns.indices = indices;
        memory.indices.put(selected)?;
        branches.push(columns)?;
    }
    Ok(branches)
}

/// The columns of each tuple of a lookup on these rows, in the order of its tuples: of an exclusive
/// lookup, its flag on these rows, and its multiplicity and denominator on those of them whose flag is
/// not zero.
///
/// `steps` are those of the lookup (`steps_of_lookups`). The columns that are returned can be put away
/// in `memory` after use. Fails only when out of memory.
pub fn columns_of_lookup<F: Field, EF: ExtensionDomain<F>>(
    alloc: Global,
    memory: &mut ColumnMemory<F, EF>,
    inputs: &ColumnInputs<'_, F, EF>,
    lookup: &Lookup<F>,
    steps: &LookupSteps<F>,
) -> Result<Vec<BranchColumns<F, EF>>, AllocError>
    requires { AreColumnInputs inputs.now lookup.now steps.now }
    ensures { IfOk result (λ v. AreColumns F.ring EF.ring EF.embed inputs.now.challenges.now
        (window_of (traces_of inputs.now.traces.now)) inputs.now.rows.now lookup.now v.items) }
{
    match &lookup.flags {
        None => additive_columns(alloc, memory, inputs, lookup, steps),
        Some(flags) => exclusive_columns(alloc, memory, inputs, lookup, steps, flags),
    }
}
