//! Polynomials of expressions.
ghost use Rattle.std.specs.Prelude.{◌≡◌, IfOk};
ghost use Rattle.air_expressions.specs.Meaning.{leaf_value, variable_value};
ghost use Rattle.air_expressions.specs.Window.{Window};
ghost use Rattle.air_constraints.specs.Facts.{AreSo};
ghost use Rattle.air_constraints.specs.Hold.{value_at};
ghost use Rattle.air_constraints.specs.Kinds.{IsOfKind};
ghost use Rattle.air_constraints.specs.Polynomials.{product_at, sum_at};

use crate::cells::same_cell;
use crate::error::PolynomialError;
use crate::facts::Facts;
use crate::kind::RowKind;
use crate::polynomial::{add_multiple, product_of};
use crate::term::Term;
use air_expressions::{BaseLeaf, SymbolicExpression, SymbolicVariable};
use field::Field;
use std::alloc::{AllocError, Global};

/// The polynomial of an element.
///
/// Fails only when out of memory.
pub(crate) fn constant<F: Field>(alloc: Global, x: F) -> Result<Vec<Term<F>>, AllocError>
    ensures { IfOk result (λ p. (w : Window F) → sum_at F.ring w p.items ≡ x) }
{
    let mut terms = Vec::new(alloc);
    if x.is_zero() {
        return Ok(terms);
    }
    let cells = Vec::new(alloc);
    terms.push(Term {
        coefficient: x,
        cells,
    })?;
    Ok(terms)
}

/// The polynomial that is a cell.
///
/// Fails only when out of memory.
pub(crate) fn of_cell<F: Field>(
    alloc: Global,
    cell: SymbolicVariable<F>,
) -> Result<Vec<Term<F>>, AllocError>
    ensures { IfOk result (λ p. (w : Window F)
        → sum_at F.ring w p.items ≡ variable_value F.ring w cell) }
{
    let mut cells = Vec::new(alloc);
    cells.push(cell)?;
    let mut terms = Vec::new(alloc);
    terms.push(Term {
        coefficient: F::ONE,
        cells,
    })?;
    Ok(terms)
}

/// A polynomial with the value of a cell: what the cell is given as, or the cell itself.
///
/// Fails only when out of memory.
pub(crate) fn polynomial_of_cell<F: Field>(
    alloc: Global,
    cell: SymbolicVariable<F>,
    facts: &Facts<F>,
) -> Result<Vec<Term<F>>, AllocError>
    ensures { IfOk result (λ p. (w : Window F) → AreSo F.ring w facts.now
        → sum_at F.ring w p.items ≡ variable_value F.ring w cell) }
{
    for given in &facts.given {
        if same_cell(given.cell, cell) {
            let mut terms = Vec::new(alloc);
            add_multiple(
                alloc,
                &mut terms,
                F::ONE,
                &[],
                given.terms.as_slice(),
                facts,
            )?;
            return Ok(terms);
        }
    }
    of_cell(alloc, cell)
}

/// The polynomial of a leaf on rows of a kind.
///
/// Fails only when out of memory.
#[inline(never)]
fn of_leaf<F: Field>(
    alloc: Global,
    leaf: BaseLeaf<F>,
    kind: RowKind,
    facts: &Facts<F>,
) -> Result<Vec<Term<F>>, AllocError>
    ensures { IfOk result (λ p. (w : Window F) → IsOfKind kind w → AreSo F.ring w facts.now
        → sum_at F.ring w p.items ≡ leaf_value F.ring w leaf) }
{
    match leaf {
        BaseLeaf::Variable(cell) => polynomial_of_cell(alloc, cell, facts),
        BaseLeaf::IsFirstRow => constant(alloc, F::from_bool(kind.is_first)),
        BaseLeaf::IsLastRow => constant(alloc, F::from_bool(kind.is_last)),
        BaseLeaf::IsTransition => constant(alloc, F::from_bool(!kind.is_last)),
        BaseLeaf::Constant(x) => constant(alloc, x),
    }
}

/// The sum of terms and a multiple of others.
///
/// Refuses `Large` if it has more than `limit` terms.
#[inline(never)]
pub fn limited_sum<F: Field>(
    alloc: Global,
    terms: Vec<Term<F>>,
    by: F,
    others: &[Term<F>],
    facts: &Facts<F>,
    limit: usize,
) -> Result<Vec<Term<F>>, PolynomialError>
    ensures { IfOk result (λ p. (w : Window F) → AreSo F.ring w facts.now → sum_at F.ring w p.items
        ≡ F.ring.add (F.ring.mul by (sum_at F.ring w others.now)) (sum_at F.ring w terms.items)) }
{
    let mut sum = terms;
    add_multiple(alloc, &mut sum, by, &[], others, facts)?;
    if sum.len() > limit {
        return Err(PolynomialError::Large);
    }
    Ok(sum)
}

/// How many cells a term may have.
const DEGREE: usize = 16;

/// The most cells of a term.
fn degree<F: Field>(terms: &[Term<F>]) -> usize {
    let mut most = 0;
    for term in terms {
        if term.cells.len() > most {
            most = term.cells.len();
        }
    }
    most
}

/// The product of two sums.
///
/// Refuses `Large` if it has more than `limit` products of their terms, or if a term could have more than `DEGREE`
/// cells.
#[inline(never)]
pub(crate) fn limited_product<F: Field>(
    alloc: Global,
    a: &[Term<F>],
    b: &[Term<F>],
    facts: &Facts<F>,
    limit: usize,
) -> Result<Vec<Term<F>>, PolynomialError>
    ensures { IfOk result (λ v. (w : Window F) → AreSo F.ring w facts.now
        → sum_at F.ring w v.items ≡ F.ring.mul (sum_at F.ring w a.now) (sum_at F.ring w b.now)) }
{
    if b.len() > 0 && a.len() > limit / b.len() {
        return Err(PolynomialError::Large);
    }
    if degree(a).saturating_add(degree(b)) > DEGREE {
        return Err(PolynomialError::Large);
    }
    Ok(product_of(alloc, a, b, facts)?)
}

/// A polynomial with the value of an expression on rows of a kind, as far as the facts lead.
///
/// It calls itself for each layer of the expression. What it calls beside is not inlined, so that a layer takes little
/// of the stack.
///
/// Refuses `Large` if a product of two sums on the way has more than `limit` products of their terms or could have more
/// than 16 cells in one, or a sum has more than `limit` terms; and `Memory`. No clause says when it is too large.
pub fn polynomial_of<F: Field>(
    alloc: Global,
    expression: &SymbolicExpression<F>,
    kind: RowKind,
    facts: &Facts<F>,
    limit: usize,
) -> Result<Vec<Term<F>>, PolynomialError>
    ensures { IfOk result (λ p. (w : Window F) → IsOfKind kind w → AreSo F.ring w facts.now
        → sum_at F.ring w p.items ≡ value_at F.ring w expression.now) }
{
    match expression {
        SymbolicExpression::Leaf(leaf) => Ok(of_leaf(alloc, *leaf, kind, facts)?),
        SymbolicExpression::Add(a, b) => {
            let left = polynomial_of(alloc, a, kind, facts, limit)?;
            let right = polynomial_of(alloc, b, kind, facts, limit)?;
            // the shorter sum is added to the longer one
            if right.len() > left.len() {
                return Ok(limited_sum(alloc, right, F::ONE, left.as_slice(), facts, limit)?);
            }
            Ok(limited_sum(alloc, left, F::ONE, right.as_slice(), facts, limit)?)
        }
        SymbolicExpression::Sub(a, b) => {
            let left = polynomial_of(alloc, a, kind, facts, limit)?;
            let right = polynomial_of(alloc, b, kind, facts, limit)?;
            Ok(limited_sum(alloc, left, -F::ONE, right.as_slice(), facts, limit)?)
        }
        SymbolicExpression::Mul(a, b) => {
            let left = polynomial_of(alloc, a, kind, facts, limit)?;
            let right = polynomial_of(alloc, b, kind, facts, limit)?;
            limited_product(alloc, left.as_slice(), right.as_slice(), facts, limit)
        }
        SymbolicExpression::Neg(a) => {
            let inner = polynomial_of(alloc, a, kind, facts, limit)?;
            let nothing = Vec::new(alloc);
            Ok(limited_sum(alloc, nothing, -F::ONE, inner.as_slice(), facts, limit)?)
        }
    }
}

/// An element times a product of cells, each as the facts give it.
///
/// Refuses as [`limited_product`] does.
fn rewritten_product<F: Field>(
    alloc: Global,
    coefficient: F,
    cells: &[SymbolicVariable<F>],
    facts: &Facts<F>,
    limit: usize,
) -> Result<Vec<Term<F>>, PolynomialError>
    ensures { IfOk result (λ p. (w : Window F) → AreSo F.ring w facts.now
        → sum_at F.ring w p.items ≡ F.ring.mul coefficient (product_at F.ring w cells.now)) }
{
    let mut product = constant(alloc, coefficient)?;
    for cell in cells {
        let of = polynomial_of_cell(alloc, *cell, facts)?;
        product = limited_product(alloc, product.as_slice(), of.as_slice(), facts, limit)?;
    }
    Ok(product)
}

/// A polynomial of the same value, as far as the facts lead.
///
/// Refuses as [`polynomial_of`] does.
pub(crate) fn rewritten<F: Field>(
    alloc: Global,
    terms: &[Term<F>],
    facts: &Facts<F>,
    limit: usize,
) -> Result<Vec<Term<F>>, PolynomialError>
    ensures { IfOk result (λ p. (w : Window F) → AreSo F.ring w facts.now
        → sum_at F.ring w p.items ≡ sum_at F.ring w terms.now) }
{
    let mut sum = Vec::new(alloc);
    for term in terms {
        let cells = term.cells.as_slice();
        let product = rewritten_product(alloc, term.coefficient, cells, facts, limit)?;
        sum = limited_sum(alloc, sum, F::ONE, product.as_slice(), facts, limit)?;
    }
    Ok(sum)
}
