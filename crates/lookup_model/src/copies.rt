//! Copies of lookups.
ghost use Rattle.std.specs.Prelude.{◌≡◌, IfOk, map, option_map};
ghost use Rattle.air_expressions.specs.Tree.{tree_of};
ghost use Rattle.lookup_model.specs.Outline.{bus_of, outline_of};

use crate::types::{Kind, Lookup};
use air_expressions::{SymbolicExpression, copy_expressions};
use field::Field;
use std::alloc::{AllocError, Global};

impl Kind {
    /// A deep copy.
    ///
    /// Fails only when out of memory.
    pub fn copy(&self, alloc: Global) -> Result<Self, AllocError>
        ensures { IfOk result (λ r. bus_of r ≡ bus_of self.now) }
    {
        match self {
            Kind::Local => Ok(Kind::Local),
            Kind::Global(bus) => Ok(Kind::Global(String::from_str(alloc, bus.as_str())?)),
        }
    }
}

impl<F: Field> Lookup<F> {
    /// A deep copy: expressions are equal node by node.
    ///
    /// Fails only when out of memory.
    pub fn copy(&self, alloc: Global) -> Result<Self, AllocError>
        ensures { IfOk result (λ r. outline_of r ≡ outline_of self.now) }
    {
        Ok(Lookup {
            kind: self.kind.copy(alloc)?,
            elements: copy_tuples(alloc, self.elements.as_slice())?,
            multiplicities: copy_expressions(alloc, self.multiplicities.as_slice())?,
            count_weight: self.count_weight,
            column: self.column,
            flags: copy_flags(alloc, &self.flags)?,
        })
    }
}

/// Copies of the tuples.
fn copy_tuples<F: Field>(
    alloc: Global,
    tuples: &[Vec<SymbolicExpression<F>>],
) -> Result<Vec<Vec<SymbolicExpression<F>>>, AllocError>
    ensures { IfOk result
        (λ v. map (λ tuple. map tree_of tuple.items) v.items
        ≡ map (λ tuple. map tree_of tuple.items) tuples.now) }
{
    let mut copies = Vec::new(alloc);
    for tuple in tuples {
        copies.push(copy_expressions(alloc, tuple.as_slice())?)?;
    }
    Ok(copies)
}

/// Copies of the flags, if there are any.
fn copy_flags<F: Field>(
    alloc: Global,
    flags: &Option<Vec<SymbolicExpression<F>>>,
) -> Result<Option<Vec<SymbolicExpression<F>>>, AllocError>
    ensures { IfOk result
        (λ o. option_map (λ flags. map tree_of flags.items) o
        ≡ option_map (λ flags. map tree_of flags.items) flags.now) }
{
    match flags {
        Some(flags) => Ok(Some(copy_expressions(alloc, flags.as_slice())?)),
        None => Ok(None),
    }
}
