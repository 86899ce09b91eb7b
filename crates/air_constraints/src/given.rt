//! Cells that linear polynomials give as sums of others.
ghost use Rattle.std.specs.Prelude.{◌≡◌, All, IfOk, OnOk};
ghost use Rattle.air_expressions.specs.Window.{Window};
ghost use Rattle.air_constraints.specs.Facts.{AreSo, IsGiven};
ghost use Rattle.air_constraints.specs.Polynomials.{sum_at};

use crate::cells::has_cell;
use crate::facts::{Facts, Given};
use crate::polynomial::add_multiple;
use crate::term::Term;
use crate::trees::of_cell;
use crate::zeros::{is_linear, mentions};
use air_expressions::SymbolicVariable;
use field::Field;
use std::alloc::{AllocError, Global};

/// The only cell of terms that has this coefficient, if there is just one.
fn lone_cell<F: Field>(terms: &[Term<F>], coefficient: F) -> Option<SymbolicVariable<F>> {
    let mut lone = None;
    for term in terms {
        if term.coefficient == coefficient && term.cells.len() == 1 {
            if let Some(_) = lone {
                return None;
            }
            lone = Some(term.cells[0]);
        }
    }
    lone
}

/// Whether a cell is in one of these lists.
fn is_listed<F: Field>(lists: &[Vec<SymbolicVariable<F>>], cell: SymbolicVariable<F>) -> bool {
    for list in lists {
        if has_cell(list.as_slice(), cell) {
            return true;
        }
    }
    false
}

/// Whether terms have a cell that is given, or one that is given has the cell in its sum.
fn is_tied<F: Field>(given: &[Given<F>], terms: &[Term<F>], cell: SymbolicVariable<F>) -> bool {
    for known in given {
        if mentions(terms, known.cell) || mentions(known.terms.as_slice(), cell) {
            return true;
        }
    }
    false
}

/// What a cell is, if `terms` are zero and have it with the coefficient one, or minus one where `minus` is set: the
/// other terms, with their signs turned or as they are.
///
/// Fails only when out of memory.
fn given_by<F: Field>(
    alloc: Global,
    terms: &[Term<F>],
    cell: SymbolicVariable<F>,
    minus: bool,
    facts: &Facts<F>,
) -> Result<Given<F>, AllocError>
    ensures { IfOk result (λ given. (w : Window F) → AreSo F.ring w facts.now
        → sum_at F.ring w terms.now ≡ F.ring.zero → IsGiven F.ring w given) }
{
    let by = if minus { F::ONE } else { -F::ONE };
    let mut others = of_cell(alloc, cell)?;
    add_multiple(alloc, &mut others, by, &[], terms, facts)?;
    Ok(Given {
        cell,
        terms: others,
    })
}

/// Whether each cell of terms is known to be a bit.
fn are_of_bits<F: Field>(terms: &[Term<F>], bits: &[SymbolicVariable<F>]) -> bool {
    for term in terms {
        for cell in &term.cells {
            if !has_cell(bits, *cell) {
                return false;
            }
        }
    }
    true
}

/// How many terms a polynomial may have to give a cell. The square of a longer sum is too large for most uses.
const LONGEST: usize = 64;

/// Whether to replace a cell by the others of terms would lose something: whether they are many, the cell is exclusive
/// with others or in a product that is zero, or it is a bit while one of the others is not known to be one.
fn is_needed<F: Field>(cell: SymbolicVariable<F>, terms: &[Term<F>], facts: &Facts<F>) -> bool {
    terms.len() > LONGEST
        || is_listed(facts.exclusive.as_slice(), cell)
        || is_listed(facts.zero_products.as_slice(), cell)
        || (has_cell(facts.bits.as_slice(), cell) && !are_of_bits(terms, facts.bits.as_slice()))
}

/// Appends the cell that a linear polynomial gives with one coefficient, if there is one, if nothing is lost by it, and
/// if nothing found before is tied to it. A cell that is known to be a bit is given only if that is asked for.
///
/// Fails only when out of memory.
fn push_given_with<F: Field>(
    alloc: Global,
    found: &mut Vec<Given<F>>,
    zero: &[Term<F>],
    minus: bool,
    bits_too: bool,
    facts: &Facts<F>,
) -> Result<(), AllocError>
    ensures { OnOk result ((w : Window F) → AreSo F.ring w facts.now
        → sum_at F.ring w zero.now ≡ F.ring.zero
        → All (IsGiven F.ring w) found.old.items → All (IsGiven F.ring w) found.new.items) }
{
    let sign = if minus { -F::ONE } else { F::ONE };
    let Some(cell) = lone_cell(zero, sign) else {
        return Ok(());
    };
    if !bits_too && has_cell(facts.bits.as_slice(), cell) {
        return Ok(());
    }
    if is_needed(cell, zero, facts) || is_tied(found.as_slice(), zero, cell) {
        return Ok(());
    }
    let given = given_by(alloc, zero, cell, minus, facts)?;
    found.push(given)?;
    Ok(())
}

/// Appends the cell that a polynomial that is zero gives, if it is linear: one that is not known to be a bit, if there
/// is one.
///
/// Fails only when out of memory.
fn push_given<F: Field>(
    alloc: Global,
    found: &mut Vec<Given<F>>,
    zero: &[Term<F>],
    facts: &Facts<F>,
) -> Result<(), AllocError>
    ensures { OnOk result ((w : Window F) → AreSo F.ring w facts.now
        → sum_at F.ring w zero.now ≡ F.ring.zero
        → All (IsGiven F.ring w) found.old.items → All (IsGiven F.ring w) found.new.items) }
{
    if !is_linear(zero) {
        return Ok(());
    }
    push_given_with(alloc, found, zero, true, false, facts)?;
    push_given_with(alloc, found, zero, false, false, facts)?;
    push_given_with(alloc, found, zero, true, true, facts)?;
    push_given_with(alloc, found, zero, false, true, facts)?;
    Ok(())
}

/// The cells that linear polynomials give, each by others that are not given.
///
/// Fails only when out of memory.
pub(crate) fn more_given<F: Field>(
    alloc: Global,
    facts: &Facts<F>,
) -> Result<Vec<Given<F>>, AllocError>
    ensures { IfOk result (λ found. (w : Window F) → AreSo F.ring w facts.now
        → All (IsGiven F.ring w) found.items) }
{
    let mut found = Vec::new(alloc);
    for zero in &facts.zeros {
        push_given(alloc, &mut found, zero.as_slice(), facts)?;
    }
    Ok(found)
}
