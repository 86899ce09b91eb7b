//! The lookups and challenges of each shape.
ghost use Rattle.std.specs.Prelude.{◌<◌};

use air::{BaseEntry, BaseLeaf, Expression, SymbolicExpression, SymbolicVariable};
use field::PrimeCharacteristicRing;
use field_monty::{BabyBear, BabyBear4};
use lookup_model::{Challenges, Kind, Lookup};
use std::alloc::{AllocError, Global};

/// The width of a shape's rows, 0 for an unknown shape.
pub fn width_of(shape: u32) -> usize {
    match shape {
        0 => 3,
        1 => 33,
        2 => 12,
        3 => 8,
        _ => 0,
    }
}

/// The lookups of a shape, none for an unknown one.
///
/// Fails only when out of memory.
pub fn lookups_of(alloc: Global, shape: u32) -> Result<Vec<Lookup<BabyBear>>, AllocError> {
    let mut lookups = Vec::new(alloc);
    match shape {
        0 => lookups.push(local_lookup(alloc)?)?,
        1 => {
            for column in 0..8 {
                lookups.push(bus_lookup(alloc, column)?)?;
            }
        }
        2 => lookups.push(exclusive_lookup(alloc)?)?,
        3 => lookups.push(lookup_of_products(alloc)?)?,
        _ => {}
    }
    Ok(lookups)
}

/// An alpha and a beta for each lookup of a shape.
pub(crate) fn challenges_of(alloc: Global, shape: u32) -> Result<Vec<BabyBear4>, AllocError> {
    let (alpha, beta) = (element([9, 2, 6, 5]), element([3, 1, 4, 15]));
    let challenges = Challenges::new(alloc, alpha, beta, 4, 4)?;
    if shape == 1 {
        challenges.for_columns(alloc, &[0, 1, 2, 3, 0, 1, 2, 3])
    } else {
        challenges.for_columns(alloc, &[0])
    }
}

/// The element with these coefficients, lowest power first.
pub fn element(coefficients: [u32; 4]) -> BabyBear4 {
    let [c0, c1, c2, c3] = coefficients;
    BabyBear4::new([
        BabyBear::new(c0),
        BabyBear::new(c1),
        BabyBear::new(c2),
        BabyBear::new(c3),
    ])
}

/// `[read]` with count 1 and `[provide]` with count `-mult`.
fn local_lookup(alloc: Global) -> Result<Lookup<BabyBear>, AllocError> {
    let mut lookup = no_tuples(alloc, Kind::Local, 0);
    lookup.elements.push(columns(alloc, 0, 1)?)?;
    lookup.multiplicities.push(one())?;
    lookup.elements.push(columns(alloc, 1, 1)?)?;
    lookup.multiplicities.push(column(2).neg(alloc)?)?;
    Ok(lookup)
}

/// The lookup of this index on its bus.
fn bus_lookup(alloc: Global, index: usize) -> Result<Lookup<BabyBear>, AllocError>
    requires { index < 8 }
{
    let name = format!(in alloc; "bus {}", index % 4)?;
    let mut lookup = no_tuples(alloc, Kind::Global(name), index);
    let count = column(32);
    lookup.elements.push(columns(alloc, 4 * index, 4)?)?;
    lookup
        .multiplicities
        .push(if index < 4 { count } else { count.neg(alloc)? })?;
    Ok(lookup)
}

/// Four branches of two columns each, under the flags in columns 0 to 3.
fn exclusive_lookup(alloc: Global) -> Result<Lookup<BabyBear>, AllocError> {
    let mut lookup = no_tuples(alloc, Kind::Local, 0);
    for branch in 0..4 {
        lookup.elements.push(columns(alloc, 4 + 2 * branch, 2)?)?;
        lookup.multiplicities.push(one())?;
    }
    lookup.flags = Some(columns(alloc, 0, 4)?);
    Ok(lookup)
}

/// The tuple `[c0 * c1 + c2 - c3, c0 * (c1 - c2) + c3 * c4]` with count `c5 * c6`.
fn lookup_of_products(alloc: Global) -> Result<Lookup<BabyBear>, AllocError> {
    let mut lookup = no_tuples(alloc, Kind::Local, 0);
    let product = column(0).mul(alloc, column(1))?;
    let first = product.add(alloc, column(2))?.sub(alloc, column(3))?;
    let difference = column(1).sub(alloc, column(2))?;
    let product = column(3).mul(alloc, column(4))?;
    let second = column(0).mul(alloc, difference)?.add(alloc, product)?;
    let mut tuple = Vec::new(alloc);
    tuple.push(first)?;
    tuple.push(second)?;
    lookup.elements.push(tuple)?;
    lookup
        .multiplicities
        .push(column(5).mul(alloc, column(6))?)?;
    Ok(lookup)
}

fn no_tuples(alloc: Global, kind: Kind, column: usize) -> Lookup<BabyBear> {
    Lookup {
        kind,
        elements: Vec::new(alloc),
        multiplicities: Vec::new(alloc),
        count_weight: 1,
        column,
        flags: None,
    }
}

/// The tuple of `width` columns from `first` on.
///
/// Fails only when out of memory.
pub fn columns(
    alloc: Global,
    first: usize,
    width: usize,
) -> Result<Vec<SymbolicExpression<BabyBear>>, AllocError>
    requires first { first < 32 }
    requires width { width < 5 }
{
    let mut tuple = Vec::with_capacity(alloc, width)?;
    for i in 0..width {
        tuple.push(column(first + i))?;
    }
    Ok(tuple)
}

/// A cell of the current row of the main trace.
pub fn column(index: usize) -> SymbolicExpression<BabyBear> {
    SymbolicExpression::Leaf(BaseLeaf::Variable(SymbolicVariable::new(
        BaseEntry::Main { offset: 0 },
        index,
    )))
}

fn one() -> SymbolicExpression<BabyBear> {
    SymbolicExpression::constant(BabyBear::ONE)
}
