//! The expressions of lookups as steps, made once for all rows.
ghost use Rattle.std.specs.Prelude.{IfOk, IfSome};
ghost use Rattle.std.specs.List.{AllZip};
ghost use Rattle.lookup_columns.specs.Steps.{AreStepsOf};
ghost use Rattle.lookup_columns.specs.LookupSteps.{AreLookupSteps, AreTupleSteps};

use crate::step::{Step, steps_of_each};
use field::Field;
use lookup_model::Lookup;
use std::alloc::{AllocError, Global};

/// The expressions of a lookup as steps.
#[derive(Drop)]
pub struct LookupSteps<F> {
    /// The steps of each flag, in an exclusive lookup.
    pub(crate) flags: Vec<Vec<Step<F>>>,
    /// The steps of each element of each tuple.
    pub(crate) elements: Vec<Vec<Vec<Step<F>>>>,
    /// The steps of the multiplicity of each tuple.
    pub(crate) multiplicities: Vec<Vec<Step<F>>>,
}

/// The steps of the elements of each tuple of a lookup, in the order of its tuples.
fn steps_of_tuples<F: Field>(
    alloc: Global,
    lookup: &Lookup<F>,
) -> Result<Vec<Vec<Vec<Step<F>>>>, AllocError>
    ensures { IfOk result (λ v. AllZip AreTupleSteps v.items lookup.now.elements.items) }
{
    let mut tuples = Vec::with_capacity(alloc, lookup.elements.len())?;
    for tuple in &lookup.elements {
        tuples.push(steps_of_each(alloc, tuple)?)?;
    }
    Ok(tuples)
}

/// The steps of the flags of a lookup, if it has any.
fn steps_of_flags<F: Field>(
    alloc: Global,
    lookup: &Lookup<F>,
) -> Result<Vec<Vec<Step<F>>>, AllocError>
    ensures { IfOk result (λ v. IfSome lookup.now.flags (λ flags.
        AllZip AreStepsOf v.items flags.items)) }
{
    match &lookup.flags {
        Some(flags) => steps_of_each(alloc, flags),
        None => Ok(Vec::new(alloc)),
    }
}

/// The expressions of a lookup as steps.
fn steps_of_lookup<F: Field>(
    alloc: Global,
    lookup: &Lookup<F>,
) -> Result<LookupSteps<F>, AllocError>
    ensures { IfOk result (λ steps. AreLookupSteps steps lookup.now) }
{
    let flags = steps_of_flags(alloc, lookup)?;
    let elements = steps_of_tuples(alloc, lookup)?;
    let multiplicities = steps_of_each(alloc, &lookup.multiplicities)?;
    Ok(LookupSteps {
        flags,
        elements,
        multiplicities,
    })
}

/// The expressions of each lookup as steps, in the order of the lookups. Fails only when out of memory.
pub fn steps_of_lookups<F: Field>(
    alloc: Global,
    lookups: &[Lookup<F>],
) -> Result<Vec<LookupSteps<F>>, AllocError>
    ensures { IfOk result (λ v. AllZip AreLookupSteps v.items lookups.now) }
{
    let mut steps = Vec::with_capacity(alloc, lookups.len())?;
    for lookup in lookups {
        steps.push(steps_of_lookup(alloc, lookup)?)?;
    }
    Ok(steps)
}
