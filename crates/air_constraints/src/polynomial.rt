//! Polynomials in the cells of a row.
ghost use Rattle.std.specs.Prelude.{◌≡◌, ◌≤◌, IfOk, OnOk, length};
ghost use Rattle.air_expressions.specs.Window.{Window};
ghost use Rattle.air_constraints.specs.Facts.{AreSo};
ghost use Rattle.air_constraints.specs.Polynomials.{product_at, sum_at, term_at};

use crate::cells::{comes_before, product_of_cells, same_products};
use crate::facts::Facts;
use crate::term::Term;
use air_expressions::SymbolicVariable;
use field::Field;
use std::alloc::{AllocError, Global};

/// Where a product of cells is, or would be, among terms that are in order: found by halving.
fn place_of<F: Field>(terms: &[Term<F>], cells: &[SymbolicVariable<F>]) -> usize
    ensures { result ≤ length terms.now }
{
    let mut low = 0;
    let mut high = terms.len();
    while low < high {
        let middle = low + (high - low) / 2;
        if comes_before(terms[middle].cells.as_slice(), cells) {
            low = middle + 1;
        } else {
            high = middle;
        }
    }
    low
}

/// Adds a term to a sum whose terms are in order.
///
/// Fails only when out of memory.
fn add_term<F: Field>(terms: &mut Vec<Term<F>>, term: Term<F>) -> Result<(), AllocError>
    ensures { OnOk result ((w : Window F) → sum_at F.ring w terms.new.items
        ≡ F.ring.add (term_at F.ring w term) (sum_at F.ring w terms.old.items)) }
{
    let at = place_of(terms.as_slice(), term.cells.as_slice());
    if at < terms.len() && same_products(terms[at].cells.as_slice(), term.cells.as_slice()) {
        let Term { coefficient, cells } = terms.remove(at);
        let sum = coefficient + term.coefficient;
        if sum.is_zero() {
            return Ok(());
        }
        terms.insert(
            at,
            Term {
                coefficient: sum,
                cells,
            },
        )?;
        return Ok(());
    }
    terms.insert(at, term)?;
    Ok(())
}

/// Adds a multiple of a term: `by` and these cells times it, unless the product is zero.
///
/// Fails only when out of memory.
fn add_product<F: Field>(
    alloc: Global,
    sum: &mut Vec<Term<F>>,
    by: F,
    cells: &[SymbolicVariable<F>],
    term: &Term<F>,
    facts: &Facts<F>,
) -> Result<(), AllocError>
    ensures { OnOk result ((w : Window F) → AreSo F.ring w facts.now
        → sum_at F.ring w sum.new.items
        ≡ F.ring.add (F.ring.mul (F.ring.mul by (product_at F.ring w cells.now)) (term_at F.ring w term.now))
        (sum_at F.ring w sum.old.items)) }
{
    match product_of_cells(alloc, cells, term.cells.as_slice(), facts)? {
        None => Ok(()),
        Some(product) => {
            let coefficient = by * term.coefficient;
            add_term(
                sum,
                Term {
                    coefficient,
                    cells: product,
                },
            )?;
            Ok(())
        }
    }
}

/// Adds a multiple of other terms: `by` and these cells times each. Products that are zero are left out.
///
/// Fails only when out of memory.
pub(crate) fn add_multiple<F: Field>(
    alloc: Global,
    sum: &mut Vec<Term<F>>,
    by: F,
    cells: &[SymbolicVariable<F>],
    terms: &[Term<F>],
    facts: &Facts<F>,
) -> Result<(), AllocError>
    ensures { OnOk result ((w : Window F) → AreSo F.ring w facts.now
        → sum_at F.ring w sum.new.items
        ≡ F.ring.add (F.ring.mul (F.ring.mul by (product_at F.ring w cells.now)) (sum_at F.ring w terms.now))
        (sum_at F.ring w sum.old.items)) }
{
    for term in terms {
        add_product(alloc, sum, by, cells, term, facts)?;
    }
    Ok(())
}

/// The product of two sums.
///
/// Fails only when out of memory.
pub(crate) fn product_of<F: Field>(
    alloc: Global,
    a: &[Term<F>],
    b: &[Term<F>],
    facts: &Facts<F>,
) -> Result<Vec<Term<F>>, AllocError>
    ensures { IfOk result (λ v. (w : Window F) → AreSo F.ring w facts.now
        → sum_at F.ring w v.items ≡ F.ring.mul (sum_at F.ring w a.now) (sum_at F.ring w b.now)) }
{
    let mut product = Vec::new(alloc);
    for term in a {
        add_multiple(
            alloc,
            &mut product,
            term.coefficient,
            term.cells.as_slice(),
            b,
            facts,
        )?;
    }
    Ok(product)
}
