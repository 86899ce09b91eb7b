//! Cells that are bits.
ghost use Rattle.std.specs.Prelude.{IfOk, OnOk};
ghost use Rattle.air_expressions.specs.Window.{Window};
ghost use Rattle.air_constraints.specs.Facts.{AreBits, AreSo};

use crate::cells::has_cell;
use crate::facts::Facts;
use crate::term::Term;
use crate::trees::of_cell;
use crate::zeros::is_bit;
use air_expressions::SymbolicVariable;
use field::Field;
use std::alloc::{AllocError, Global};

/// Appends the cells of a polynomial that are not known to be bits, each once.
///
/// Fails only when out of memory.
fn push_cells<F: Field>(
    cells: &mut Vec<SymbolicVariable<F>>,
    terms: &[Term<F>],
    bits: &[SymbolicVariable<F>],
) -> Result<(), AllocError> {
    for term in terms {
        for cell in &term.cells {
            if !has_cell(bits, *cell) && !has_cell(cells.as_slice(), *cell) {
                cells.push(*cell)?;
            }
        }
    }
    Ok(())
}

/// The cells of which something is known and which are not known to be bits, each once.
///
/// Fails only when out of memory.
fn other_cells<F: Field>(
    alloc: Global,
    facts: &Facts<F>,
) -> Result<Vec<SymbolicVariable<F>>, AllocError> {
    let mut cells = Vec::new(alloc);
    for zero in &facts.zeros {
        push_cells(&mut cells, zero.as_slice(), facts.bits.as_slice())?;
    }
    Ok(cells)
}

/// Appends a cell, if it is shown to be a bit.
///
/// Fails only when out of memory.
fn push_bit<F: Field>(
    alloc: Global,
    found: &mut Vec<SymbolicVariable<F>>,
    cell: SymbolicVariable<F>,
    facts: &Facts<F>,
    limit: usize,
) -> Result<(), AllocError>
    ensures { OnOk result ((w : Window F) → AreSo F.ring w facts.now
        → AreBits F.ring w found.old.items → AreBits F.ring w found.new.items) }
{
    let polynomial = of_cell(alloc, cell)?;
    let same = is_bit(alloc, polynomial.as_slice(), facts, limit)?;
    if !same {
        return Ok(());
    }
    found.push(cell)?;
    Ok(())
}

/// The cells that are shown to be bits and are not known to be.
///
/// Fails only when out of memory.
pub(crate) fn more_bits<F: Field>(
    alloc: Global,
    facts: &Facts<F>,
    limit: usize,
) -> Result<Vec<SymbolicVariable<F>>, AllocError>
    ensures { IfOk result (λ found. (w : Window F) → AreSo F.ring w facts.now
        → AreBits F.ring w found.items) }
{
    let cells = other_cells(alloc, facts)?;
    let mut found = Vec::new(alloc);
    for cell in &cells {
        push_bit(alloc, &mut found, *cell, facts, limit)?;
    }
    Ok(found)
}
