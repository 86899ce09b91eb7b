//! Products of cells that are zero.
ghost use Rattle.std.specs.Prelude.{◌≡◌, All, IfOk, OnOk};
ghost use Rattle.air_expressions.specs.Window.{Window};
ghost use Rattle.air_constraints.specs.Facts.{AreSo, IsZeroProduct};
ghost use Rattle.air_constraints.specs.Polynomials.{sum_at};

use crate::cells::is_zero_product;
use crate::facts::Facts;
use crate::polynomial::add_multiple;
use crate::term::Term;
use crate::zeros::mentions;
use air_expressions::SymbolicVariable;
use field::Field;
use std::alloc::{AllocError, Global};

/// How many terms a polynomial may have to be tried times exclusive cells.
const SMALL: usize = 4;

/// Appends the cells of a polynomial that is zero and has one term, unless they are known to have the product zero.
///
/// Fails only when out of memory.
fn push_zero_product<F: Field>(
    alloc: Global,
    found: &mut Vec<Vec<SymbolicVariable<F>>>,
    zero: &[Term<F>],
) -> Result<(), AllocError>
    ensures { OnOk result ((w : Window F) → sum_at F.ring w zero.now ≡ F.ring.zero
        → All (λ n. IsZeroProduct F.ring w n.items) found.old.items
        → All (λ n. IsZeroProduct F.ring w n.items) found.new.items) }
{
    if zero.len() != 1 || zero[0].coefficient.is_zero() || zero[0].cells.len() == 0 {
        return Ok(());
    }
    if is_zero_product(zero[0].cells.as_slice(), found.as_slice()) {
        return Ok(());
    }
    let cells = Vec::from_slice(alloc, zero[0].cells.as_slice())?;
    found.push(cells)?;
    Ok(())
}

/// Appends what a polynomial that is zero, times a cell, shows to be zero.
///
/// Fails only when out of memory.
fn push_product<F: Field>(
    alloc: Global,
    found: &mut Vec<Vec<SymbolicVariable<F>>>,
    zero: &[Term<F>],
    cell: SymbolicVariable<F>,
    facts: &Facts<F>,
) -> Result<(), AllocError>
    ensures { OnOk result ((w : Window F) → AreSo F.ring w facts.now
        → sum_at F.ring w zero.now ≡ F.ring.zero
        → All (λ n. IsZeroProduct F.ring w n.items) found.old.items
        → All (λ n. IsZeroProduct F.ring w n.items) found.new.items) }
{
    let mut product = Vec::new(alloc);
    add_multiple(alloc, &mut product, F::ONE, &[cell], zero, facts)?;
    push_zero_product(alloc, found, product.as_slice())?;
    Ok(())
}

/// Whether one of these cells occurs in terms.
fn mentions_some<F: Field>(terms: &[Term<F>], cells: &[SymbolicVariable<F>]) -> bool {
    for cell in cells {
        if mentions(terms, *cell) {
            return true;
        }
    }
    false
}

/// Appends what a polynomial that is zero, times each of exclusive cells, shows to be zero, if it has one of them.
///
/// Fails only when out of memory.
fn push_products<F: Field>(
    alloc: Global,
    found: &mut Vec<Vec<SymbolicVariable<F>>>,
    zero: &[Term<F>],
    exclusive: &[SymbolicVariable<F>],
    facts: &Facts<F>,
) -> Result<(), AllocError>
    ensures { OnOk result ((w : Window F) → AreSo F.ring w facts.now
        → sum_at F.ring w zero.now ≡ F.ring.zero
        → All (λ n. IsZeroProduct F.ring w n.items) found.old.items
        → All (λ n. IsZeroProduct F.ring w n.items) found.new.items) }
{
    if !mentions_some(zero, exclusive) {
        return Ok(());
    }
    for cell in exclusive {
        push_product(alloc, found, zero, *cell, facts)?;
    }
    Ok(())
}

/// Appends what a polynomial that is zero shows to be zero: itself, if it has one term; and a small one, times the
/// exclusive cells that it has one of.
///
/// Fails only when out of memory.
fn push_zero_products<F: Field>(
    alloc: Global,
    found: &mut Vec<Vec<SymbolicVariable<F>>>,
    zero: &[Term<F>],
    facts: &Facts<F>,
) -> Result<(), AllocError>
    ensures { OnOk result ((w : Window F) → AreSo F.ring w facts.now
        → sum_at F.ring w zero.now ≡ F.ring.zero
        → All (λ n. IsZeroProduct F.ring w n.items) found.old.items
        → All (λ n. IsZeroProduct F.ring w n.items) found.new.items) }
{
    push_zero_product(alloc, found, zero)?;
    if zero.len() > SMALL {
        return Ok(());
    }
    for cells in &facts.exclusive {
        push_products(alloc, found, zero, cells.as_slice(), facts)?;
    }
    Ok(())
}

/// The products of cells that are shown to be zero; what is known is left out of polynomials, and so not shown again.
///
/// Fails only when out of memory.
pub(crate) fn more_zero_products<F: Field>(
    alloc: Global,
    facts: &Facts<F>,
) -> Result<Vec<Vec<SymbolicVariable<F>>>, AllocError>
    ensures { IfOk result (λ found. (w : Window F) → AreSo F.ring w facts.now
        → All (λ n. IsZeroProduct F.ring w n.items) found.items) }
{
    let mut found = Vec::new(alloc);
    for zero in &facts.zeros {
        push_zero_products(alloc, &mut found, zero.as_slice(), facts)?;
    }
    Ok(found)
}
