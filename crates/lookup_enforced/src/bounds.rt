//! Bounds of multiplicities.
ghost use Rattle.std.specs.Prelude.{◌≡◌, ◌≤◌, IfOk, IfSome};
ghost use Rattle.std.specs.List.{AllZip};
ghost use Rattle.air_expressions.specs.Window.{Window};
ghost use Rattle.air_constraints.specs.Bounds.{IsWithin};
ghost use Rattle.lookup_enforced.specs.internal.Shown.{IsAnyOf, KnownRows};
ghost use Rattle.lookup_model.specs.Sent.{value};

use crate::rows::{LIMIT, RowFacts};
use air_constraints::{Facts, PolynomialError, RowKind, bound_of, polynomial_of};
use air_expressions::SymbolicExpression;
use field::Field;
use std::alloc::{AllocError, Global};

/// A bound of a multiplicity on rows of a kind, if one is shown.
///
/// Fails only when out of memory.
fn bound_on<F: Field>(
    alloc: Global,
    multiplicity: &SymbolicExpression<F>,
    kind: RowKind,
    facts: &Facts<F>,
) -> Result<Option<u64>, AllocError>
    ensures { IfOk result (λ answer. IfSome answer (λ bound. (w : Window F)
        → KnownRows F.ring kind facts.now w
        → IsWithin F.ring bound (value F.ring w multiplicity.now))) }
{
    match polynomial_of(alloc, multiplicity, kind, facts, LIMIT) {
        Ok(terms) => Ok(bound_of(alloc, terms.as_slice(), facts, LIMIT)?),
        Err(PolynomialError::Large) => Ok(None),
        Err(PolynomialError::Memory) => Err(AllocError),
    }
}

/// The greater of two bounds.
fn greater(a: u64, b: u64) -> u64
    ensures { (a ≤ result) × (b ≤ result) }
{
    if a > b { a } else { b }
}

/// A bound of a multiplicity on rows of all kinds, if one is shown for each of them.
///
/// Fails only when out of memory.
fn bound_over<F: Field>(
    alloc: Global,
    multiplicity: &SymbolicExpression<F>,
    rows: &[RowFacts<F>],
) -> Result<Option<u64>, AllocError>
    ensures { IfOk result (λ answer. IfSome answer (λ bound. (w : Window F) → IsAnyOf F.ring rows.now w
        → IsWithin F.ring bound (value F.ring w multiplicity.now))) }
{
    let mut most = 0;
    for row in rows {
        let Some(bound) = bound_on(alloc, multiplicity, row.kind, &row.facts)? else {
            return Ok(None);
        };
        most = greater(most, bound);
    }
    Ok(Some(most))
}

/// The bounds of multiplicities on rows of all kinds.
///
/// Fails only when out of memory.
pub(crate) fn bounds_over<F: Field>(
    alloc: Global,
    multiplicities: &[SymbolicExpression<F>],
    rows: &[RowFacts<F>],
) -> Result<Vec<Option<u64>>, AllocError>
    ensures { IfOk result (λ bounds. AllZip (λ m b. IfSome b (λ n. (w : Window F)
        → IsAnyOf F.ring rows.now w → IsWithin F.ring n (value F.ring w m)))
        multiplicities.now bounds.items) }
{
    let mut bounds = Vec::with_capacity(alloc, multiplicities.len())?;
    for multiplicity in multiplicities {
        let bound = bound_over(alloc, multiplicity, rows)?;
        bounds.push(bound)?;
    }
    Ok(bounds)
}
