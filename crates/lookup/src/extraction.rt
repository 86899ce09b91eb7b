//! Making lookups from what an AIR has recorded.
ghost use Rattle.std.specs.Prelude.{◌≡◌, ◌⊎◌, ◌++◌, All, IfOk, MatchResult, length, map};
ghost use Rattle.lookup_model.specs.Outline.{fields_of};
ghost use Rattle.lookup.specs.Extraction.{IsFaultless, IsFirstLocalRefusal, IsLocalRefusal, exclusive_at, extraction, global_at, in_columns, local_at};
ghost use Rattle.lookup_model.specs.Records.{AreRecords, IsRecordAt};
ghost use Rattle.lookup_record.specs.Records.{exclusive_of, global_of, local_of};

use crate::tuple_widths::assert_uniform_tuple_width;
use field::Field;
use lookup_model::{Kind, Lookup, LookupError};
use lookup_record::{SymbolicExclusiveInteraction, SymbolicInteraction, SymbolicLocalInteraction};
use std::alloc::{AllocError, Global};

/// The lookup of a local interaction, with the sum of its tuples' weights.
///
/// Refuses `CountWeightOverflow` if that sum does not fit, then `TupleWidths` if the tuples have
/// two widths.
fn local_lookup<F: Field>(
    alloc: Global,
    interaction: SymbolicLocalInteraction<F>,
    column: usize,
) -> Result<Lookup<F>, LookupError>
    ensures { MatchResult result
        (λ lookup. (fields_of lookup ≡ local_at column (local_of interaction))
        × IsFaultless (local_of interaction) × IsRecordAt column lookup)
        (λ e. (e ≡ LookupError.Memory) ⊎ IsLocalRefusal (local_of interaction) e) }
{
    let mut elements = Vec::new(alloc);
    let mut multiplicities = Vec::new(alloc);
    let mut count_weight: u64 = 0;
    for (fields, count) in interaction.tuples {
        let (expression, weight) = count.into_parts();
        match count_weight.checked_add(weight) {
            Some(sum) => count_weight = sum,
            None => return Err(LookupError::CountWeightOverflow),
        }
        elements.push(fields)?;
        multiplicities.push(expression)?;
    }
    assert_uniform_tuple_width(alloc, &elements, "local lookup")?;
    Ok(Lookup {
        kind: Kind::Local,
        elements,
        multiplicities,
        count_weight,
        column,
        flags: None,
    })
}

/// The lookup of a message on a bus.
fn global_lookup<F: Field>(
    alloc: Global,
    interaction: SymbolicInteraction<F>,
    column: usize,
) -> Result<Lookup<F>, AllocError>
    ensures { IfOk result (λ lookup. (fields_of lookup ≡ global_at column (global_of interaction))
        × IsRecordAt column lookup) }
{
    let mut elements = Vec::new(alloc);
    elements.push(interaction.fields)?;
    let mut multiplicities = Vec::new(alloc);
    multiplicities.push(interaction.count)?;
    Ok(Lookup {
        kind: Kind::Global(interaction.bus_name),
        elements,
        multiplicities,
        count_weight: interaction.count_weight,
        column,
        flags: None,
    })
}

/// The lookup of a group, with the greatest of its branches' weights.
fn exclusive_lookup<F: Field>(
    alloc: Global,
    interaction: SymbolicExclusiveInteraction<F>,
    column: usize,
) -> Result<Lookup<F>, AllocError>
    ensures { IfOk result (λ lookup. (fields_of lookup
        ≡ exclusive_at column (exclusive_of interaction)) × IsRecordAt column lookup) }
{
    let mut elements = Vec::new(alloc);
    let mut multiplicities = Vec::new(alloc);
    let mut flags = Vec::new(alloc);
    let mut count_weight: u64 = 0;
    for branch in interaction.branches {
        count_weight = count_weight.max(branch.count_weight);
        elements.push(branch.fields)?;
        multiplicities.push(branch.count)?;
        flags.push(branch.flag)?;
    }
    Ok(Lookup {
        kind: Kind::Global(interaction.bus_name),
        elements,
        multiplicities,
        count_weight,
        column,
        flags: Some(flags),
    })
}

/// The lookups of local interactions, in the columns 0, 1, 2, …
///
/// Refuses the fault of the first of them that has one.
fn local_lookups<F: Field>(
    alloc: Global,
    locals: Vec<SymbolicLocalInteraction<F>>,
) -> Result<Vec<Lookup<F>>, LookupError>
    ensures { MatchResult result
        (λ lookups. (map fields_of lookups.items
        ≡ in_columns local_at 0 (map local_of locals.items))
        × All IsFaultless (map local_of locals.items) × AreRecords lookups.items)
        (λ e. (e ≡ LookupError.Memory) ⊎ IsFirstLocalRefusal (map local_of locals.items) e) }
{
    let mut lookups = Vec::new(alloc);
    for interaction in locals {
        let column = lookups.len();
        lookups.push(local_lookup(alloc, interaction, column)?)?;
    }
    Ok(lookups)
}

/// These lookups, followed by those of messages on buses in the next columns.
fn with_globals<F: Field>(
    alloc: Global,
    before: Vec<Lookup<F>>,
    globals: Vec<SymbolicInteraction<F>>,
) -> Result<Vec<Lookup<F>>, AllocError>
    requires { AreRecords before.items }
    ensures { IfOk result (λ lookups. (map fields_of lookups.items ≡ map fields_of before.items
        ++ in_columns global_at (length before.items) (map global_of globals.items))
        × AreRecords lookups.items) }
{
    let mut lookups = before;
    for interaction in globals {
        let column = lookups.len();
        lookups.push(global_lookup(alloc, interaction, column)?)?;
    }
    Ok(lookups)
}

/// These lookups, followed by those of groups in the next columns.
fn with_exclusives<F: Field>(
    alloc: Global,
    before: Vec<Lookup<F>>,
    exclusives: Vec<SymbolicExclusiveInteraction<F>>,
) -> Result<Vec<Lookup<F>>, AllocError>
    requires { AreRecords before.items }
    ensures { IfOk result (λ lookups. (map fields_of lookups.items ≡ map fields_of before.items
        ++ in_columns exclusive_at (length before.items) (map exclusive_of exclusives.items))
        × AreRecords lookups.items) }
{
    let mut lookups = before;
    for interaction in exclusives {
        let column = lookups.len();
        lookups.push(exclusive_lookup(alloc, interaction, column)?)?;
    }
    Ok(lookups)
}

/// The lookups of local interactions, then of messages on buses, then of groups, in the columns 0,
/// 1, 2, …
///
/// Refuses the fault of the first local interaction that has one.
pub(crate) fn extract_lookups<F: Field>(
    alloc: Global,
    locals: Vec<SymbolicLocalInteraction<F>>,
    globals: Vec<SymbolicInteraction<F>>,
    exclusives: Vec<SymbolicExclusiveInteraction<F>>,
) -> Result<Vec<Lookup<F>>, LookupError>
    ensures { MatchResult result
        (λ lookups. (map fields_of lookups.items
        ≡ extraction (map local_of locals.items) (map global_of globals.items)
        (map exclusive_of exclusives.items))
        × All IsFaultless (map local_of locals.items) × AreRecords lookups.items)
        (λ e. (e ≡ LookupError.Memory) ⊎ IsFirstLocalRefusal (map local_of locals.items) e) }
{
    let lookups = local_lookups(alloc, locals)?;
    let lookups = with_globals(alloc, lookups, globals)?;
    Ok(with_exclusives(alloc, lookups, exclusives)?)
}
