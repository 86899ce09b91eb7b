//! Products of cells.
ghost use Rattle.std.specs.Prelude.{◌≡◌, All, IfOk, IsTrue, MatchOption, OnOk};
ghost use Rattle.air_expressions.specs.Meaning.{variable_value};
ghost use Rattle.air_expressions.specs.Window.{Window};
ghost use Rattle.air_constraints.specs.Facts.{AreApart, AreApartFrom, AreBits, AreSo, IsBit, IsZeroProduct};
ghost use Rattle.air_constraints.specs.Polynomials.{product_at};

use crate::facts::Facts;
use air_expressions::{BaseEntry, SymbolicVariable};
use field::Field;
use std::alloc::{AllocError, Global};

/// Two numbers for each kind of entry, to order cells by.
fn rank(entry: BaseEntry) -> (usize, usize) {
    match entry {
        BaseEntry::Preprocessed { offset } => (0, offset),
        BaseEntry::Main { offset } => (1, offset),
        BaseEntry::Public => (2, 0),
    }
}

/// Whether the first cell comes before the second in the order of cells.
pub(crate) fn is_before<F: Field>(a: SymbolicVariable<F>, b: SymbolicVariable<F>) -> bool {
    let (left, right) = (rank(a.entry), rank(b.entry));
    if left.0 != right.0 {
        return left.0 < right.0;
    }
    if left.1 != right.1 {
        return left.1 < right.1;
    }
    a.index < b.index
}

/// Whether both are the same cell.
pub(crate) fn same_cell<F: Field>(a: SymbolicVariable<F>, b: SymbolicVariable<F>) -> bool
    ensures { IsTrue result → (w : Window F)
        → variable_value F.ring w a ≡ variable_value F.ring w b }
{
    a.entry == b.entry && a.index == b.index
}

/// Whether a cell is among others.
pub(crate) fn has_cell<F: Field>(cells: &[SymbolicVariable<F>], cell: SymbolicVariable<F>) -> bool
    ensures bits { IsTrue result → (w : Window F) → AreBits F.ring w cells.now
        → IsBit F.ring (variable_value F.ring w cell) }
    ensures apart { IsTrue result → (w : Window F) (a : F) → AreApartFrom F.ring w a cells.now
        → F.ring.mul a (variable_value F.ring w cell) ≡ F.ring.zero }
{
    for other in cells {
        if same_cell(*other, cell) {
            return true;
        }
    }
    false
}

/// Whether two cells are at different places of a list any two of which have the product zero.
fn are_two_of<F: Field>(
    exclusive: &[SymbolicVariable<F>],
    a: SymbolicVariable<F>,
    b: SymbolicVariable<F>,
) -> bool
    ensures { IsTrue result → (w : Window F) → AreApart F.ring w exclusive.now
        → F.ring.mul (variable_value F.ring w a) (variable_value F.ring w b) ≡ F.ring.zero }
{
    for i in 0..exclusive.len() {
        if same_cell(exclusive[i], a) {
            return has_cell(&exclusive[i + 1..], b);
        }
        if same_cell(exclusive[i], b) {
            return has_cell(&exclusive[i + 1..], a);
        }
    }
    false
}

/// Whether the product of a cell and others is zero, since it and one of them are exclusive.
fn is_apart<F: Field>(
    cells: &[SymbolicVariable<F>],
    cell: SymbolicVariable<F>,
    exclusive: &[SymbolicVariable<F>],
) -> bool
    ensures { IsTrue result → (w : Window F) → AreApart F.ring w exclusive.now
        → F.ring.mul (variable_value F.ring w cell) (product_at F.ring w cells.now) ≡ F.ring.zero }
{
    for other in cells {
        if are_two_of(exclusive, cell, *other) {
            return true;
        }
    }
    false
}

/// Whether the product of a cell and others is zero, since it and one of them are in one of these lists.
fn is_apart_in_some<F: Field>(
    cells: &[SymbolicVariable<F>],
    cell: SymbolicVariable<F>,
    lists: &[Vec<SymbolicVariable<F>>],
) -> bool
    ensures { IsTrue result → (w : Window F) → All (λ g. AreApart F.ring w g.items) lists.now
        → F.ring.mul (variable_value F.ring w cell) (product_at F.ring w cells.now) ≡ F.ring.zero }
{
    for list in lists {
        if is_apart(cells, cell, list.as_slice()) {
            return true;
        }
    }
    false
}

/// Multiplies by one more cell. A cell that is a bit and is there already changes nothing.
///
/// Fails only when out of memory.
fn with_cell<F: Field>(
    cells: &mut Vec<SymbolicVariable<F>>,
    cell: SymbolicVariable<F>,
    bits: &[SymbolicVariable<F>],
) -> Result<(), AllocError>
    ensures { OnOk result ((w : Window F) → AreBits F.ring w bits.now
        → product_at F.ring w cells.new.items
        ≡ F.ring.mul (variable_value F.ring w cell) (product_at F.ring w cells.old.items)) }
{
    let mut at = 0;
    while at < cells.len() && is_before(cells[at], cell) {
        at += 1;
    }
    if at < cells.len() && same_cell(cells[at], cell) && has_cell(bits, cell) {
        return Ok(());
    }
    cells.insert(at, cell)?;
    Ok(())
}

/// Whether a list of cells has all of another, each as often, so that its product is zero where that of the other
/// is. Both are in order.
fn has_product<F: Field>(cells: &[SymbolicVariable<F>], part: &[SymbolicVariable<F>]) -> bool
    ensures { IsTrue result → (w : Window F) → IsZeroProduct F.ring w part.now
        → IsZeroProduct F.ring w cells.now }
{
    let mut found = 0;
    for cell in cells {
        if found < part.len() && same_cell(part[found], *cell) {
            found += 1;
        }
    }
    found == part.len()
}

/// Whether a product of cells is zero, since it has a product that is.
pub(crate) fn is_zero_product<F: Field>(
    cells: &[SymbolicVariable<F>],
    zero_products: &[Vec<SymbolicVariable<F>>],
) -> bool
    ensures { IsTrue result → (w : Window F) → All (λ n. IsZeroProduct F.ring w n.items) zero_products.now
        → IsZeroProduct F.ring w cells.now }
{
    for product in zero_products {
        if has_product(cells, product.as_slice()) {
            return true;
        }
    }
    false
}

/// The cells of both, where cells that are bits are there once, or `None` if their product is zero.
///
/// Fails only when out of memory.
pub(crate) fn product_of_cells<F: Field>(
    alloc: Global,
    a: &[SymbolicVariable<F>],
    b: &[SymbolicVariable<F>],
    facts: &Facts<F>,
) -> Result<Option<Vec<SymbolicVariable<F>>>, AllocError>
    ensures { IfOk result (λ product. (w : Window F) → AreSo F.ring w facts.now → MatchOption product
        (F.ring.mul (product_at F.ring w a.now) (product_at F.ring w b.now) ≡ F.ring.zero)
        (λ v. product_at F.ring w v.items
        ≡ F.ring.mul (product_at F.ring w a.now) (product_at F.ring w b.now))) }
{
    let mut product = Vec::from_slice(alloc, a)?;
    for cell in b {
        if is_apart_in_some(product.as_slice(), *cell, facts.exclusive.as_slice()) {
            return Ok(None);
        }
        with_cell(&mut product, *cell, facts.bits.as_slice())?;
    }
    if is_zero_product(product.as_slice(), facts.zero_products.as_slice()) {
        return Ok(None);
    }
    Ok(Some(product))
}

/// Whether both products are of the same cells in the same order.
pub(crate) fn same_products<F: Field>(a: &[SymbolicVariable<F>], b: &[SymbolicVariable<F>]) -> bool
    ensures { IsTrue result → (w : Window F)
        → product_at F.ring w a.now ≡ product_at F.ring w b.now }
{
    if a.len() != b.len() {
        return false;
    }
    for i in 0..a.len() {
        if !same_cell(a[i], b[i]) {
            return false;
        }
    }
    true
}

/// Whether the first product comes before the second: by their first different cells, else by their lengths.
pub(crate) fn comes_before<F: Field>(a: &[SymbolicVariable<F>], b: &[SymbolicVariable<F>]) -> bool {
    for i in 0..a.len() {
        if i >= b.len() {
            return false;
        }
        if is_before(a[i], b[i]) {
            return true;
        }
        if is_before(b[i], a[i]) {
            return false;
        }
    }
    a.len() < b.len()
}
