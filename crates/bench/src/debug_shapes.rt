//! The lookups of each shape.
ghost use Rattle.std.specs.Prelude.{◌<◌};

use air::{Expression, SymbolicExpression};
use bench_shapes::{column, columns};
use field::PrimeCharacteristicRing;
use field_monty::BabyBear;
use lookup_model::{Kind, Lookup};
use std::alloc::{AllocError, Global};

/// The width of a shape's rows, 0 for an unknown shape.
pub(crate) fn width_of(shape: u32) -> usize {
    match shape {
        0 => 3,
        1 => 33,
        _ => 0,
    }
}

/// The lookups of a shape, none for an unknown one.
pub(crate) fn lookups_of(alloc: Global, shape: u32) -> Result<Vec<Lookup<BabyBear>>, AllocError> {
    let mut lookups = Vec::new(alloc);
    if shape == 0 {
        lookups.push(local_lookup(alloc)?)?;
    }
    if shape == 1 {
        for column in 0..8 {
            lookups.push(bus_lookup(alloc, column)?)?;
        }
    }
    Ok(lookups)
}

/// `[read]` with count 1 and `[provide]` with count `-mult`.
fn local_lookup(alloc: Global) -> Result<Lookup<BabyBear>, AllocError> {
    let mut lookup = no_tuples(alloc, Kind::Local, 0);
    let one = SymbolicExpression::constant(BabyBear::ONE);
    lookup.elements.push(columns(alloc, 0, 1)?)?;
    lookup.multiplicities.push(one)?;
    lookup.elements.push(columns(alloc, 1, 1)?)?;
    lookup.multiplicities.push(column(2).neg(alloc)?)?;
    Ok(lookup)
}

/// The lookup of this index on the bus.
fn bus_lookup(alloc: Global, index: usize) -> Result<Lookup<BabyBear>, AllocError>
    requires { index < 8 }
{
    let kind = Kind::Global(String::from_str(alloc, "bus")?);
    let mut lookup = no_tuples(alloc, kind, index);
    let count = column(32);
    lookup.elements.push(columns(alloc, 4 * index, 4)?)?;
    lookup
        .multiplicities
        .push(if index < 4 { count } else { count.neg(alloc)? })?;
    Ok(lookup)
}

fn no_tuples(alloc: Global, kind: Kind, column: usize) -> Lookup<BabyBear> {
    Lookup {
        kind,
        elements: Vec::new(alloc),
        multiplicities: Vec::new(alloc),
        count_weight: 1,
        column,
        flags: None,
    }
}
