//! What constraints say of the cells of a row.
ghost use Rattle.std.specs.Prelude.{◌≡◌, All, IfOk, OnOk};
ghost use Rattle.air_expressions.specs.Window.{Window};
ghost use Rattle.air_constraints.specs.Facts.{AreSo, IsGiven, Vanish};
ghost use Rattle.air_constraints.specs.Hold.{Hold, value_at};
ghost use Rattle.air_constraints.specs.Kinds.{IsOfKind};
ghost use Rattle.air_constraints.specs.Polynomials.{sum_at};

use crate::bits::more_bits;
use crate::error::PolynomialError;
use crate::exclusive::more_exclusive;
use crate::facts::{Facts, Given};
use crate::given::more_given;
use crate::kind::RowKind;
use crate::polynomial::add_multiple;
use crate::term::Term;
use crate::trees::{polynomial_of, rewritten};
use crate::zero_products::more_zero_products;
use air_expressions::SymbolicExpression;
use field::Field;
use std::alloc::{AllocError, Global};

/// How often something more is looked for. Each time something was found, what is known is used to find more.
const ROUNDS: usize = 32;

/// Appends the polynomial of a constraint on rows of a kind, unless it is zero by itself or too large.
///
/// Fails only when out of memory.
fn push_zero<F: Field>(
    alloc: Global,
    zeros: &mut Vec<Vec<Term<F>>>,
    constraint: &SymbolicExpression<F>,
    kind: RowKind,
    facts: &Facts<F>,
    limit: usize,
) -> Result<(), AllocError>
    ensures { OnOk result ((w : Window F) → IsOfKind kind w → AreSo F.ring w facts.now
        → value_at F.ring w constraint.now ≡ F.ring.zero → Vanish F.ring w zeros.old.items
        → Vanish F.ring w zeros.new.items) }
{
    match polynomial_of(alloc, constraint, kind, facts, limit) {
        Ok(polynomial) => {
            if polynomial.len() > 0 {
                zeros.push(polynomial)?;
            }
            Ok(())
        }
        Err(PolynomialError::Large) => Ok(()),
        Err(PolynomialError::Memory) => Err(AllocError),
    }
}

/// The polynomials of constraints on rows of a kind, without those that are too large.
///
/// Fails only when out of memory.
fn zeros_of<F: Field>(
    alloc: Global,
    constraints: &[SymbolicExpression<F>],
    kind: RowKind,
    facts: &Facts<F>,
    limit: usize,
) -> Result<Vec<Vec<Term<F>>>, AllocError>
    ensures { IfOk result (λ zeros. (w : Window F) → IsOfKind kind w → AreSo F.ring w facts.now
        → Hold F.ring w constraints.now → Vanish F.ring w zeros.items) }
{
    let mut zeros = Vec::new(alloc);
    for constraint in constraints {
        push_zero(alloc, &mut zeros, constraint, kind, facts, limit)?;
    }
    Ok(zeros)
}

/// A polynomial of the same value, with what is known, or as it is where that would be too large.
///
/// Fails only when out of memory.
fn renewed<F: Field>(
    alloc: Global,
    terms: &[Term<F>],
    facts: &Facts<F>,
    limit: usize,
) -> Result<Vec<Term<F>>, AllocError>
    ensures { IfOk result (λ p. (w : Window F) → AreSo F.ring w facts.now
        → sum_at F.ring w p.items ≡ sum_at F.ring w terms.now) }
{
    match rewritten(alloc, terms, facts, limit) {
        Ok(polynomial) => Ok(polynomial),
        Err(PolynomialError::Large) => {
            let mut copy = Vec::new(alloc);
            add_multiple(alloc, &mut copy, F::ONE, &[], terms, facts)?;
            Ok(copy)
        }
        Err(PolynomialError::Memory) => Err(AllocError),
    }
}

/// The polynomials that are zero, with what is known, without those that are zero by themselves.
///
/// Fails only when out of memory.
fn renewed_zeros<F: Field>(
    alloc: Global,
    facts: &Facts<F>,
    limit: usize,
) -> Result<Vec<Vec<Term<F>>>, AllocError>
    ensures { IfOk result (λ zeros. (w : Window F) → AreSo F.ring w facts.now
        → Vanish F.ring w zeros.items) }
{
    let mut zeros = Vec::new(alloc);
    for zero in &facts.zeros {
        let polynomial = renewed(alloc, zero.as_slice(), facts, limit)?;
        if polynomial.len() > 0 {
            zeros.push(polynomial)?;
        }
    }
    Ok(zeros)
}

/// The cells that are given, by what is known of the cells in their sums.
///
/// Fails only when out of memory.
fn renewed_given<F: Field>(
    alloc: Global,
    facts: &Facts<F>,
    limit: usize,
) -> Result<Vec<Given<F>>, AllocError>
    ensures { IfOk result (λ given. (w : Window F) → AreSo F.ring w facts.now
        → All (IsGiven F.ring w) given.items) }
{
    let mut given = Vec::new(alloc);
    for known in &facts.given {
        let terms = renewed(alloc, known.terms.as_slice(), facts, limit)?;
        given.push(Given {
            cell: known.cell,
            terms,
        })?;
    }
    Ok(given)
}

/// Puts what is known into the polynomials that are zero and into the sums that are given.
///
/// Fails only when out of memory.
fn renew<F: Field>(alloc: Global, facts: &mut Facts<F>, limit: usize) -> Result<(), AllocError>
    ensures { OnOk result ((w : Window F) → AreSo F.ring w facts.old → AreSo F.ring w facts.new) }
{
    let zeros = renewed_zeros(alloc, facts, limit)?;
    let given = renewed_given(alloc, facts, limit)?;
    facts.zeros = zeros;
    facts.given = given;
    Ok(())
}

/// Looks for something that is not known: bits, else cells of which at most one is set, else products that are zero, else cells that are given.
/// Whether something was found, and is known now.
///
/// Fails only when out of memory.
fn find_more<F: Field>(
    alloc: Global,
    facts: &mut Facts<F>,
    limit: usize,
) -> Result<bool, AllocError>
    ensures { OnOk result ((w : Window F) → AreSo F.ring w facts.old → AreSo F.ring w facts.new) }
{
    let mut bits = more_bits(alloc, facts, limit)?;
    if bits.len() > 0 {
        facts.bits.append(&mut bits)?;
        return Ok(true);
    }
    let mut exclusive = more_exclusive(alloc, facts, limit)?;
    if exclusive.len() > 0 {
        facts.exclusive.append(&mut exclusive)?;
        return Ok(true);
    }
    let mut products = more_zero_products(alloc, facts)?;
    if products.len() > 0 {
        facts.zero_products.append(&mut products)?;
        return Ok(true);
    }
    let mut given = more_given(alloc, facts)?;
    if given.len() > 0 {
        facts.given.append(&mut given)?;
        return Ok(true);
    }
    Ok(false)
}

/// What constraints say of the cells of a row of a kind: it is so on each such row on which all of them hold.
///
/// A constraint whose polynomial is too large by `limit` is left out; see [`polynomial_of`](crate::polynomial_of).
/// Fails only when out of memory.
pub fn facts_of<F: Field>(
    alloc: Global,
    constraints: &[SymbolicExpression<F>],
    kind: RowKind,
    limit: usize,
) -> Result<Facts<F>, AllocError>
    ensures { IfOk result (λ facts. (w : Window F) → IsOfKind kind w
        → Hold F.ring w constraints.now → AreSo F.ring w facts) }
{
    let mut facts = Facts::nothing(alloc);
    let zeros = zeros_of(alloc, constraints, kind, &facts, limit)?;
    facts.zeros = zeros;
    for _round in 0..ROUNDS {
        if !find_more(alloc, &mut facts, limit)? {
            return Ok(facts);
        }
        renew(alloc, &mut facts, limit)?;
    }
    Ok(facts)
}
