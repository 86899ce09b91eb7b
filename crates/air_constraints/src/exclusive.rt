//! Exclusive cells: bits of which at most one is set.
ghost use Rattle.std.specs.Prelude.{◌≡◌, All, IfOk, IfSome, IsTrue, OnOk, map};
ghost use Rattle.std.specs.List.{AllByRecursion};
ghost use Rattle.air_expressions.specs.Meaning.{variable_value};
ghost use Rattle.air_expressions.specs.Window.{Window};
ghost use Rattle.air_constraints.specs.internal.Bits.{sum_of};
ghost use Rattle.air_constraints.specs.Facts.{AreApart, AreSo, IsBit};
ghost use Rattle.air_constraints.specs.Polynomials.{sum_at};

use crate::cells::has_cell;
use crate::facts::Facts;
use crate::polynomial::add_multiple;
use crate::term::Term;
use crate::trees::of_cell;
use crate::zeros::{is_bit, is_linear};
use air_expressions::SymbolicVariable;
use field::Field;
use std::alloc::{AllocError, Global};

/// The cells of a linear polynomial that have this coefficient.
///
/// Fails only when out of memory.
fn cells_with<F: Field>(
    alloc: Global,
    terms: &[Term<F>],
    coefficient: F,
) -> Result<Vec<SymbolicVariable<F>>, AllocError> {
    let mut cells = Vec::new(alloc);
    for term in terms {
        if term.coefficient == coefficient && term.cells.len() == 1 {
            cells.push(term.cells[0])?;
        }
    }
    Ok(cells)
}

/// All cells of a polynomial, each once.
///
/// Fails only when out of memory.
fn cells_of<F: Field>(
    alloc: Global,
    terms: &[Term<F>],
) -> Result<Vec<SymbolicVariable<F>>, AllocError> {
    let mut cells = Vec::new(alloc);
    for term in terms {
        for cell in &term.cells {
            if !has_cell(cells.as_slice(), *cell) {
                cells.push(*cell)?;
            }
        }
    }
    Ok(cells)
}

/// The sum of cells, if all of them are known to be bits.
///
/// Fails only when out of memory.
fn sum_of_bits<F: Field>(
    alloc: Global,
    cells: &[SymbolicVariable<F>],
    facts: &Facts<F>,
) -> Result<Option<Vec<Term<F>>>, AllocError>
    ensures { IfOk result (λ answer. (w : Window F) → AreSo F.ring w facts.now → IfSome answer (λ sum.
        AllByRecursion (λ v. IsBit F.ring (variable_value F.ring w v)) cells.now
        × (sum_at F.ring w sum.items ≡ sum_of F.ring (map (variable_value F.ring w) cells.now)))) }
{
    let mut sum = Vec::new(alloc);
    for cell in cells {
        if !has_cell(facts.bits.as_slice(), *cell) {
            return Ok(None);
        }
        let one = of_cell(alloc, *cell)?;
        add_multiple(alloc, &mut sum, F::ONE, &[], one.as_slice(), facts)?;
    }
    Ok(Some(sum))
}

/// Whether the product of any two of these cells is shown to be zero: whether they are fewer than the characteristic,
/// bits, and have a sum that is a bit.
///
/// Fails only when out of memory.
fn are_apart<F: Field>(
    alloc: Global,
    cells: &[SymbolicVariable<F>],
    facts: &Facts<F>,
    limit: usize,
) -> Result<bool, AllocError>
    ensures { IfOk result (λ b. IsTrue b → (w : Window F) → AreSo F.ring w facts.now
        → AreApart F.ring w cells.now) }
{
    let count = cells.len() as u128;
    if count < 2 || count >= F::CHARACTERISTIC {
        return Ok(false);
    }
    match sum_of_bits(alloc, cells, facts)? {
        None => Ok(false),
        Some(sum) => Ok(is_bit(alloc, sum.as_slice(), facts, limit)?),
    }
}

/// Whether one of the lists has all of these cells.
fn is_known<F: Field>(cells: &[SymbolicVariable<F>], lists: &[Vec<SymbolicVariable<F>>]) -> bool {
    for list in lists {
        if has_all(list.as_slice(), cells) {
            return true;
        }
    }
    false
}

/// Whether a list has all of these cells.
fn has_all<F: Field>(list: &[SymbolicVariable<F>], cells: &[SymbolicVariable<F>]) -> bool {
    for cell in cells {
        if !has_cell(list, *cell) {
            return false;
        }
    }
    true
}

/// Appends these cells, unless they are known to be exclusive or are not shown to be.
///
/// Fails only when out of memory.
fn push_exclusive<F: Field>(
    alloc: Global,
    found: &mut Vec<Vec<SymbolicVariable<F>>>,
    cells: Vec<SymbolicVariable<F>>,
    facts: &Facts<F>,
    limit: usize,
) -> Result<(), AllocError>
    ensures { OnOk result ((w : Window F) → AreSo F.ring w facts.now
        → All (λ g. AreApart F.ring w g.items) found.old.items
        → All (λ g. AreApart F.ring w g.items) found.new.items) }
{
    if is_known(cells.as_slice(), facts.exclusive.as_slice())
        || is_known(cells.as_slice(), found.as_slice())
    {
        return Ok(());
    }
    let apart = are_apart(alloc, cells.as_slice(), facts, limit)?;
    if !apart {
        return Ok(());
    }
    found.push(cells)?;
    Ok(())
}

/// Appends the lists of exclusive cells that a polynomial that is zero shows: of a linear one the cells of one
/// sign, else all of its cells.
///
/// Fails only when out of memory.
fn push_all_exclusive<F: Field>(
    alloc: Global,
    found: &mut Vec<Vec<SymbolicVariable<F>>>,
    zero: &[Term<F>],
    facts: &Facts<F>,
    limit: usize,
) -> Result<(), AllocError>
    ensures { OnOk result ((w : Window F) → AreSo F.ring w facts.now
        → All (λ g. AreApart F.ring w g.items) found.old.items
        → All (λ g. AreApart F.ring w g.items) found.new.items) }
{
    if !is_linear(zero) {
        let cells = cells_of(alloc, zero)?;
        push_exclusive(alloc, found, cells, facts, limit)?;
        return Ok(());
    }
    let plus = cells_with(alloc, zero, F::ONE)?;
    push_exclusive(alloc, found, plus, facts, limit)?;
    let minus = cells_with(alloc, zero, -F::ONE)?;
    push_exclusive(alloc, found, minus, facts, limit)?;
    Ok(())
}

/// The lists of cells that are shown to be exclusive and are not known to be.
///
/// Fails only when out of memory.
pub(crate) fn more_exclusive<F: Field>(
    alloc: Global,
    facts: &Facts<F>,
    limit: usize,
) -> Result<Vec<Vec<SymbolicVariable<F>>>, AllocError>
    ensures { IfOk result (λ found. (w : Window F) → AreSo F.ring w facts.now
        → All (λ g. AreApart F.ring w g.items) found.items) }
{
    let mut found = Vec::new(alloc);
    for zero in &facts.zeros {
        push_all_exclusive(alloc, &mut found, zero.as_slice(), facts, limit)?;
    }
    Ok(found)
}
