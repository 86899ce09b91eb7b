//! Polynomials that are zero, zero or one, or not known to be.
ghost use Rattle.std.specs.Prelude.{◌≡◌, IfOk, IsTrue};
ghost use Rattle.air_expressions.specs.Window.{Window};
ghost use Rattle.field.specs.Ring.{sub_in};
ghost use Rattle.air_constraints.specs.Facts.{AreSo, IsBit};
ghost use Rattle.air_constraints.specs.Polynomials.{sum_at};

use crate::cells::{has_cell, same_products};
use crate::error::PolynomialError;
use crate::exclusive_sums::is_exclusive_sum;
use crate::facts::Facts;
use crate::polynomial::add_multiple;
use crate::term::Term;
use crate::trees::{limited_product, limited_sum};
use air_expressions::SymbolicVariable;
use field::Field;
use std::alloc::{AllocError, Global};

/// Whether two polynomials have terms of the same cells, in the same order.
fn have_same_products<F: Field>(a: &[Term<F>], b: &[Term<F>]) -> bool {
    if a.len() != b.len() {
        return false;
    }
    for i in 0..a.len() {
        if !same_products(a[i].cells.as_slice(), b[i].cells.as_slice()) {
            return false;
        }
    }
    true
}

/// The coefficient of the first term, zero without terms.
fn leading<F: Field>(terms: &[Term<F>]) -> F {
    if terms.len() == 0 {
        return F::ZERO;
    }
    terms[0].coefficient
}

/// Whether the first polynomial is a multiple of the second, and so zero wherever that is.
///
/// Fails only when out of memory.
fn vanishes_with<F: Field>(
    alloc: Global,
    terms: &[Term<F>],
    zero: &[Term<F>],
    facts: &Facts<F>,
) -> Result<bool, AllocError>
    ensures { IfOk result (λ b. IsTrue b → (w : Window F) → AreSo F.ring w facts.now
        → sum_at F.ring w zero.now ≡ F.ring.zero → sum_at F.ring w terms.now ≡ F.ring.zero) }
{
    if !have_same_products(terms, zero) {
        return Ok(false);
    }
    let by = leading(zero);
    if by.is_zero() {
        return Ok(false);
    }
    let mut difference = Vec::new(alloc);
    add_multiple(alloc, &mut difference, by, &[], terms, facts)?;
    add_multiple(alloc, &mut difference, -leading(terms), &[], zero, facts)?;
    let left = difference.len();
    Ok(left == 0)
}

/// Whether a polynomial is zero: whether it has no terms, or is a multiple of one that is known to be zero.
///
/// Fails only when out of memory.
fn is_zero<F: Field>(alloc: Global, terms: &[Term<F>], facts: &Facts<F>) -> Result<bool, AllocError>
    ensures { IfOk result (λ b. IsTrue b → (w : Window F) → AreSo F.ring w facts.now
        → sum_at F.ring w terms.now ≡ F.ring.zero) }
{
    if terms.len() == 0 {
        return Ok(true);
    }
    for zero in &facts.zeros {
        let same = vanishes_with(alloc, terms, zero.as_slice(), facts)?;
        if same {
            return Ok(true);
        }
    }
    Ok(false)
}

/// The square of a polynomial less itself.
///
/// Refuses as `limited_product` does.
fn square_less_itself<F: Field>(
    alloc: Global,
    terms: &[Term<F>],
    facts: &Facts<F>,
    limit: usize,
) -> Result<Vec<Term<F>>, PolynomialError>
    ensures { IfOk result (λ p. (w : Window F) → AreSo F.ring w facts.now
        → sum_at F.ring w p.items ≡ sub_in F.ring
        (F.ring.mul (sum_at F.ring w terms.now) (sum_at F.ring w terms.now)) (sum_at F.ring w terms.now)) }
{
    let square = limited_product(alloc, terms, terms, facts, limit)?;
    Ok(limited_sum(alloc, square, -F::ONE, terms, facts, usize::MAX)?)
}

/// Whether a polynomial is zero or one: whether its square less itself is zero, or where that is too large it is a
/// sum of exclusive bits. What else is too large is not known to be.
///
/// Fails only when out of memory.
fn is_plain_bit<F: Field>(
    alloc: Global,
    terms: &[Term<F>],
    facts: &Facts<F>,
    limit: usize,
) -> Result<bool, AllocError>
    ensures { IfOk result (λ b. IsTrue b → (w : Window F) → AreSo F.ring w facts.now
        → IsBit F.ring (sum_at F.ring w terms.now)) }
{
    match square_less_itself(alloc, terms, facts, limit) {
        Ok(difference) => Ok(is_zero(alloc, difference.as_slice(), facts)?),
        Err(PolynomialError::Large) => Ok(is_exclusive_sum(terms, facts)),
        Err(PolynomialError::Memory) => Err(AllocError),
    }
}

/// Whether each term is of one cell at most.
pub(crate) fn is_linear<F: Field>(terms: &[Term<F>]) -> bool {
    for term in terms {
        if term.cells.len() > 1 {
            return false;
        }
    }
    true
}

/// Whether a cell occurs in terms.
pub(crate) fn mentions<F: Field>(terms: &[Term<F>], cell: SymbolicVariable<F>) -> bool {
    for term in terms {
        if has_cell(term.cells.as_slice(), cell) {
            return true;
        }
    }
    false
}

/// Whether some cell occurs in both.
fn share_a_cell<F: Field>(a: &[Term<F>], b: &[Term<F>]) -> bool {
    for term in a {
        for cell in &term.cells {
            if mentions(b, *cell) {
                return true;
            }
        }
    }
    false
}

/// Whether a polynomial plus a multiple of one that is zero is a bit: both have the same value.
///
/// Fails only when out of memory.
fn is_bit_beside<F: Field>(
    alloc: Global,
    terms: &[Term<F>],
    by: F,
    zero: &[Term<F>],
    facts: &Facts<F>,
    limit: usize,
) -> Result<bool, AllocError>
    ensures { IfOk result (λ b. IsTrue b → (w : Window F) → AreSo F.ring w facts.now
        → sum_at F.ring w zero.now ≡ F.ring.zero → IsBit F.ring (sum_at F.ring w terms.now)) }
{
    let mut shifted = Vec::new(alloc);
    add_multiple(alloc, &mut shifted, F::ONE, &[], terms, facts)?;
    add_multiple(alloc, &mut shifted, by, &[], zero, facts)?;
    Ok(is_plain_bit(alloc, shifted.as_slice(), facts, limit)?)
}

/// Whether a polynomial is a bit by itself, or plus or minus one of the linear polynomials that are known to be zero.
///
/// Fails only when out of memory.
pub fn is_bit<F: Field>(
    alloc: Global,
    terms: &[Term<F>],
    facts: &Facts<F>,
    limit: usize,
) -> Result<bool, AllocError>
    ensures { IfOk result (λ b. IsTrue b → (w : Window F) → AreSo F.ring w facts.now
        → IsBit F.ring (sum_at F.ring w terms.now)) }
{
    let plain = is_plain_bit(alloc, terms, facts, limit)?;
    if plain {
        return Ok(true);
    }
    for zero in &facts.zeros {
        let other = zero.as_slice();
        if is_linear(other) && share_a_cell(terms, other) {
            let above = is_bit_beside(alloc, terms, F::ONE, other, facts, limit)?;
            if above {
                return Ok(true);
            }
            let below = is_bit_beside(alloc, terms, -F::ONE, other, facts, limit)?;
            if below {
                return Ok(true);
            }
        }
    }
    Ok(false)
}
