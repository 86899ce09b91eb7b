//! Bounds of elements that are whole numbers.
ghost use Rattle.std.specs.Prelude.{◌≡◌, IfOk, IfSome, IsTrue};
ghost use Rattle.air_expressions.specs.Window.{Window};
ghost use Rattle.air_constraints.specs.Bounds.{IsInRange, IsWithin, Widens, number_of};
ghost use Rattle.air_constraints.specs.Facts.{AreBits, AreSo, IsBit};
ghost use Rattle.air_constraints.specs.Polynomials.{product_at, sum_at};

use crate::cells::has_cell;
use crate::facts::Facts;
use crate::polynomial::add_multiple;
use crate::term::Term;
use crate::zeros::is_bit;
use air_expressions::SymbolicVariable;
use field::Field;
use std::alloc::{AllocError, Global};

/// A whole number: its sign and its size.
#[derive(Clone, Copy)]
pub struct WholeNumber {
    /// Whether it is below zero.
    pub minus: bool,
    /// Its absolute value.
    pub size: u64,
}

/// The range of a whole number: from minus `down` to `up`.
#[derive(Clone, Copy)]
pub struct Range {
    /// The most that it is above zero.
    pub up: u64,
    /// The most that it is below zero.
    pub down: u64,
}

impl Range {
    ghost use Rattle.std.specs.Prelude.{◌≤◌};

    /// The most that a number of the range is above or below zero.
    pub fn most(self) -> u64
        ensures { (self.up ≤ result) × (self.down ≤ result) }
    {
        if self.up > self.down {
            self.up
        } else {
            self.down
        }
    }
}

/// Up to which size whole numbers are tried one by one.
const TRIED: u32 = 4096;

/// The whole number of this size that an element is, with one sign or the other.
fn number_of_size<F: Field>(x: F, size: u64) -> Option<WholeNumber>
    ensures { IfSome result (λ n. x ≡ number_of F.ring n) }
{
    let element = F::from_u64(size);
    if element == x {
        return Some(WholeNumber { minus: false, size });
    }
    if -element == x {
        return Some(WholeNumber { minus: true, size });
    }
    None
}

/// A whole number that an element is: one of at most `TRIED`, or a power of two below 2^62, with either sign.
fn whole_number<F: Field>(x: F) -> Option<WholeNumber>
    ensures { IfSome result (λ n. x ≡ number_of F.ring n) }
{
    for size in 0..TRIED + 1 {
        let found = number_of_size(x, size as u64);
        if found.is_some() {
            return found;
        }
    }
    let mut power: u64 = 8192;
    while power < 4_611_686_018_427_387_904 {
        let found = number_of_size(x, power);
        if found.is_some() {
            return found;
        }
        power *= 2;
    }
    None
}

/// Whether all cells are known to be bits, and so is their product.
fn are_bits<F: Field>(cells: &[SymbolicVariable<F>], bits: &[SymbolicVariable<F>]) -> bool
    ensures { IsTrue result → (w : Window F) → AreBits F.ring w bits.now
        → IsBit F.ring (product_at F.ring w cells.now) }
{
    for cell in cells {
        if !has_cell(bits, *cell) {
            return false;
        }
    }
    true
}

/// A range with one more number in it: it, or nothing, is added to what was in the range.
fn widened(range: Range, number: WholeNumber) -> Option<Range>
    ensures { IfSome result (λ wide. Widens range number wide) }
{
    if number.minus {
        let down = range.down.checked_add(number.size)?;
        return Some(Range { up: range.up, down });
    }
    let up = range.up.checked_add(number.size)?;
    Some(Range {
        up,
        down: range.down,
    })
}

/// The range of a polynomial whose cells are bits, and whose coefficients are whole numbers.
fn range_of<F: Field>(terms: &[Term<F>], bits: &[SymbolicVariable<F>]) -> Option<Range>
    ensures { IfSome result (λ range. (w : Window F) → AreBits F.ring w bits.now
        → IsInRange F.ring range (sum_at F.ring w terms.now)) }
{
    let mut range = Range { up: 0, down: 0 };
    for term in terms {
        if !are_bits(term.cells.as_slice(), bits) {
            return None;
        }
        let number = whole_number(term.coefficient)?;
        range = widened(range, number)?;
    }
    Some(range)
}

/// Whether a polynomial is zero or one, or zero or minus one.
///
/// Fails only when out of memory.
fn is_within_one<F: Field>(
    alloc: Global,
    terms: &[Term<F>],
    facts: &Facts<F>,
    limit: usize,
) -> Result<bool, AllocError>
    ensures { IfOk result (λ b. IsTrue b → (w : Window F) → AreSo F.ring w facts.now
        → IsWithin F.ring 1 (sum_at F.ring w terms.now)) }
{
    let bit = is_bit(alloc, terms, facts, limit)?;
    if bit {
        return Ok(true);
    }
    let mut turned = Vec::new(alloc);
    add_multiple(alloc, &mut turned, -F::ONE, &[], terms, facts)?;
    let minus = is_bit(alloc, turned.as_slice(), facts, limit)?;
    Ok(minus)
}

/// Whether a range has no number beyond one and minus one.
fn is_small(range: Option<Range>) -> bool {
    match range {
        Some(found) => found.up <= 1 && found.down <= 1,
        None => false,
    }
}

/// A bound of the absolute value of a polynomial, if it is shown to be a whole number: of a sum of bits with
/// whole coefficients the greater of the sums of either sign, and 1 of what is zero or one, or zero or minus one.
///
/// Fails only when out of memory.
pub fn bound_of<F: Field>(
    alloc: Global,
    terms: &[Term<F>],
    facts: &Facts<F>,
    limit: usize,
) -> Result<Option<u64>, AllocError>
    ensures { IfOk result (λ answer. (w : Window F) → AreSo F.ring w facts.now
        → IfSome answer (λ bound. IsWithin F.ring bound (sum_at F.ring w terms.now))) }
{
    let range = range_of(terms, facts.bits.as_slice());
    if !is_small(range) {
        let one = is_within_one(alloc, terms, facts, limit)?;
        if one {
            return Ok(Some(1));
        }
    }
    match range {
        Some(found) => Ok(Some(found.most())),
        None => Ok(None),
    }
}
