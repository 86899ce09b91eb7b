//! Flags that are shown to be lawful.
ghost use Rattle.std.specs.Prelude.{◌≡◌, IfOk, IfSome, IsNone};
ghost use Rattle.air_constraints.specs.Facts.{IsBit};
ghost use Rattle.air_constraints.specs.Polynomials.{sum_at};
ghost use Rattle.air_expressions.specs.Window.{Window};
ghost use Rattle.lookup_enforced.specs.internal.Shown.{IsAnyOf, KnownRows};
ghost use Rattle.lookup_model.specs.Fault.{IsLawfulSelection};
ghost use Rattle.lookup_model.specs.Sent.{value, values};

use crate::enforcement::Missing;
use crate::rows::{LIMIT, RowFacts};
use air_constraints::{Facts, PolynomialError, RowKind, Term, is_bit, limited_sum, polynomial_of};
use air_expressions::SymbolicExpression;
use field::Field;
use std::alloc::{AllocError, Global};

/// The polynomial of a flag on rows of a kind, if it is shown to be zero or one there.
///
/// Fails only when out of memory.
fn bit_of<F: Field>(
    alloc: Global,
    flag: &SymbolicExpression<F>,
    kind: RowKind,
    facts: &Facts<F>,
) -> Result<Option<Vec<Term<F>>>, AllocError>
    ensures { IfOk result (λ answer. (w : Window F) → KnownRows F.ring kind facts.now w
        → IfSome answer (λ terms. (sum_at F.ring w terms.items ≡ value F.ring w flag.now)
        × IsBit F.ring (sum_at F.ring w terms.items))) }
{
    match polynomial_of(alloc, flag, kind, facts, LIMIT) {
        Ok(terms) => {
            let bit = is_bit(alloc, terms.as_slice(), facts, LIMIT)?;
            if !bit {
                return Ok(None);
            }
            Ok(Some(terms))
        }
        Err(PolynomialError::Large) => Ok(None),
        Err(PolynomialError::Memory) => Err(AllocError),
    }
}

/// The sum of terms and others, unless it is too large.
///
/// Fails only when out of memory.
fn sum_with<F: Field>(
    alloc: Global,
    sum: Vec<Term<F>>,
    terms: &[Term<F>],
    kind: RowKind,
    facts: &Facts<F>,
) -> Result<Option<Vec<Term<F>>>, AllocError>
    ensures { IfOk result (λ answer. (w : Window F) → KnownRows F.ring kind facts.now w
        → IfSome answer (λ more. sum_at F.ring w more.items
        ≡ F.ring.add (sum_at F.ring w terms.now) (sum_at F.ring w sum.items))) }
{
    match limited_sum(alloc, sum, F::ONE, terms, facts, LIMIT) {
        Ok(more) => Ok(Some(more)),
        Err(PolynomialError::Large) => Ok(None),
        Err(PolynomialError::Memory) => Err(AllocError),
    }
}

/// The first thing that is not shown of flags on rows of a kind, if there is one.
///
/// Fails only when out of memory.
fn missing_on<F: Field>(
    alloc: Global,
    flags: &[SymbolicExpression<F>],
    kind: RowKind,
    facts: &Facts<F>,
) -> Result<Option<Missing>, AllocError>
    ensures { IfOk result (λ missing. IsNone missing → (w : Window F) → KnownRows F.ring kind facts.now w
        → IsLawfulSelection F.ring F.eq (values F.ring w flags.now)) }
{
    let count = flags.len() as u128;
    if count >= F::CHARACTERISTIC {
        return Ok(Some(Missing::Exclusive { kind }));
    }
    let mut sum = Vec::new(alloc);
    for flag in 0..flags.len() {
        let Some(terms) = bit_of(alloc, &flags[flag], kind, facts)? else {
            return Ok(Some(Missing::Flag { flag, kind }));
        };
        let Some(more) = sum_with(alloc, sum, terms.as_slice(), kind, facts)? else {
            return Ok(Some(Missing::Exclusive { kind }));
        };
        sum = more;
    }
    let bit = is_bit(alloc, sum.as_slice(), facts, LIMIT)?;
    if !bit {
        return Ok(Some(Missing::Exclusive { kind }));
    }
    Ok(None)
}

/// The first thing that is not shown of flags, kind by kind, if there is one.
///
/// Fails only when out of memory.
pub(crate) fn missing_over<F: Field>(
    alloc: Global,
    flags: &[SymbolicExpression<F>],
    rows: &[RowFacts<F>],
) -> Result<Option<Missing>, AllocError>
    ensures { IfOk result (λ missing. IsNone missing → (w : Window F) → IsAnyOf F.ring rows.now w
        → IsLawfulSelection F.ring F.eq (values F.ring w flags.now)) }
{
    for row in rows {
        let missing = missing_on(alloc, flags, row.kind, &row.facts)?;
        if missing.is_some() {
            return Ok(missing);
        }
    }
    Ok(None)
}
