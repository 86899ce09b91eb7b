//! What a fixed trace says of its cells, as constraints.
ghost use Rattle.std.specs.Prelude.{IfOk, OnOk};
ghost use Rattle.lookup_enforced.specs.Fixed.{HoldOverFixed, ReadsFixed};

use air::Traces;
use air_constraints::check_constraints;
use air_expressions::{BaseEntry, Expression, SymbolicExpression, SymbolicVariable};
use field::{Field, PrimeCharacteristicRing};
use matrix::RowMajorMatrix;
use std::alloc::{AllocError, Global};

/// Of how many columns it is looked at whether their sum is a bit, or the product of two is zero. The square of a sum of so
/// many has at most 4,096 terms.
const MOST_IN_SQUARE: usize = 63;

/// What these columns of a preprocessed trace say of its cells, as constraints that hold on all traces that have it and
/// are as high: of each column of zeros and ones that its cells are bits; of all these columns of bits that their sum is
/// one. If it is not, and they are at most 63, that their sum is a bit; and if it is none, of any two of them that are
/// nowhere both one that their product is zero. Each is said of the current row and of the next one.
///
/// An AIR need not assert this, since a verifier knows what it fixes. Each column is read once, and once more with the
/// others; where those of at most 63 are not exclusive, once for each two of them. A column that the trace does not
/// have counts as zeros.
///
/// Fails only when out of memory.
pub fn fixed_constraints<F: Field>(
    alloc: Global,
    preprocessed: &RowMajorMatrix<F>,
    columns: &[usize],
) -> Result<Vec<SymbolicExpression<F>>, AllocError>
    ensures { IfOk result (λ found. HoldOverFixed F.ring preprocessed.now found.items) }
{
    let mut found = Vec::new(alloc);
    let mut bits = Vec::new(alloc);
    push_bits(alloc, &mut found, &mut bits, preprocessed, columns)?;
    push_exclusive(alloc, &mut found, preprocessed, bits.as_slice())?;
    Ok(found)
}

/// Appends of each of these columns that its cells are bits, if they are, and appends those columns to `bits`.
///
/// Fails only when out of memory.
pub(crate) fn push_bits<F: Field>(
    alloc: Global,
    found: &mut Vec<SymbolicExpression<F>>,
    bits: &mut Vec<usize>,
    preprocessed: &RowMajorMatrix<F>,
    columns: &[usize],
) -> Result<(), AllocError>
    ensures { OnOk result (HoldOverFixed F.ring preprocessed.now found.old.items
        → HoldOverFixed F.ring preprocessed.now found.new.items) }
{
    for column in columns {
        if push_bit(alloc, found, preprocessed, &[*column])? {
            bits.push(*column)?;
        }
    }
    Ok(())
}

/// Appends which of these columns of bits are nowhere both one.
///
/// Fails only when out of memory.
pub(crate) fn push_exclusive<F: Field>(
    alloc: Global,
    found: &mut Vec<SymbolicExpression<F>>,
    preprocessed: &RowMajorMatrix<F>,
    bits: &[usize],
) -> Result<(), AllocError>
    ensures { OnOk result (HoldOverFixed F.ring preprocessed.now found.old.items
        → HoldOverFixed F.ring preprocessed.now found.new.items) }
{
    if push_sum(alloc, found, preprocessed, bits)? || bits.len() > MOST_IN_SQUARE {
        return Ok(());
    }
    for index in 0..bits.len() {
        push_products(alloc, found, preprocessed, &bits[..index], bits[index])?;
    }
    Ok(())
}

/// Appends that the sum of these columns is a bit on each row, if it is, and returns whether it is.
///
/// Fails only when out of memory.
fn push_bit<F: Field>(
    alloc: Global,
    found: &mut Vec<SymbolicExpression<F>>,
    preprocessed: &RowMajorMatrix<F>,
    columns: &[usize],
) -> Result<bool, AllocError>
    ensures { OnOk result (HoldOverFixed F.ring preprocessed.now found.old.items
        → HoldOverFixed F.ring preprocessed.now found.new.items) }
{
    let current = bit_constraint(alloc, 0, columns)?;
    let next = bit_constraint(alloc, 1, columns)?;
    Ok(push_holding(alloc, found, current, next, preprocessed)?)
}

/// Appends that the sum of these columns is one on each row, if it is, or else that it is a bit. Whether nothing more is
/// to be said of them: if it is either, or if there are fewer than two. A sum of as many bits as the characteristic, or more,
/// says nothing of them.
///
/// Fails only when out of memory.
fn push_sum<F: Field>(
    alloc: Global,
    found: &mut Vec<SymbolicExpression<F>>,
    preprocessed: &RowMajorMatrix<F>,
    columns: &[usize],
) -> Result<bool, AllocError>
    ensures { OnOk result (HoldOverFixed F.ring preprocessed.now found.old.items
        → HoldOverFixed F.ring preprocessed.now found.new.items) }
{
    if columns.len() < 2 {
        return Ok(true);
    }
    if columns.len() as u128 >= F::CHARACTERISTIC {
        return Ok(false);
    }
    let current = less_one(alloc, 0, columns)?;
    let next = less_one(alloc, 1, columns)?;
    if push_holding(alloc, found, current, next, preprocessed)? {
        return Ok(true);
    }
    if columns.len() > MOST_IN_SQUARE {
        return Ok(false);
    }
    Ok(push_bit(alloc, found, preprocessed, columns)?)
}

/// Appends, for each of these columns whose product with the other one is zero on all rows, that this product is zero.
///
/// Fails only when out of memory.
fn push_products<F: Field>(
    alloc: Global,
    found: &mut Vec<SymbolicExpression<F>>,
    preprocessed: &RowMajorMatrix<F>,
    columns: &[usize],
    other: usize,
) -> Result<(), AllocError>
    ensures { OnOk result (HoldOverFixed F.ring preprocessed.now found.old.items
        → HoldOverFixed F.ring preprocessed.now found.new.items) }
{
    for column in columns {
        let current = product_constraint(alloc, 0, *column, other)?;
        let next = product_constraint(alloc, 1, *column, other)?;
        push_holding(alloc, found, current, next, preprocessed)?;
    }
    Ok(())
}

/// Appends two constraints on fixed cells, if both hold over the trace, and returns whether they do. For that it stands
/// for the main one too.
///
/// Fails only when out of memory.
fn push_holding<F: Field>(
    alloc: Global,
    found: &mut Vec<SymbolicExpression<F>>,
    current: SymbolicExpression<F>,
    next: SymbolicExpression<F>,
    preprocessed: &RowMajorMatrix<F>,
) -> Result<bool, AllocError>
    requires current { ReadsFixed F.ring current }
    requires next { ReadsFixed F.ring next }
    ensures { OnOk result (HoldOverFixed F.ring preprocessed.now found.old.items
        → HoldOverFixed F.ring preprocessed.now found.new.items) }
{
    let mut candidates = Vec::new(alloc);
    candidates.push(current)?;
    candidates.push(next)?;
    let traces = Traces {
        main: preprocessed,
        preprocessed: Some(preprocessed),
        public_values: &[],
    };
    match check_constraints(candidates.as_slice(), &traces) {
        Ok(()) => {
            found.append(&mut candidates)?;
            Ok(true)
        }
        Err(_) => Ok(false),
    }
}

/// A cell of the preprocessed trace, of the current row at offset 0 and of the next one at offset 1.
fn fixed_cell<F: Field>(offset: usize, column: usize) -> SymbolicExpression<F>
    ensures { ReadsFixed F.ring result }
{
    SymbolicVariable::new(BaseEntry::Preprocessed { offset }, column).into()
}

/// The sum of the cells of some columns, by halves.
///
/// Fails only when out of memory.
fn sum_of_columns<F: Field>(
    alloc: Global,
    offset: usize,
    columns: &[usize],
) -> Result<SymbolicExpression<F>, AllocError>
    ensures { IfOk result (λ e. ReadsFixed F.ring e) }
{
    if columns.is_empty() {
        return Ok(SymbolicExpression::constant(F::ZERO));
    }
    if columns.len() == 1 {
        return Ok(fixed_cell(offset, columns[0]));
    }
    let (left, right) = columns.split_at(columns.len() / 2);
    let sum = sum_of_columns(alloc, offset, left)?;
    sum.add(alloc, sum_of_columns(alloc, offset, right)?)
}

/// That the sum of some columns is one.
///
/// Fails only when out of memory.
fn less_one<F: Field>(
    alloc: Global,
    offset: usize,
    columns: &[usize],
) -> Result<SymbolicExpression<F>, AllocError>
    ensures { IfOk result (λ e. ReadsFixed F.ring e) }
{
    let one = SymbolicExpression::constant(F::ONE);
    sum_of_columns(alloc, offset, columns)?.sub(alloc, one)
}

/// That the sum of some columns is a bit.
///
/// Fails only when out of memory.
fn bit_constraint<F: Field>(
    alloc: Global,
    offset: usize,
    columns: &[usize],
) -> Result<SymbolicExpression<F>, AllocError>
    ensures { IfOk result (λ e. ReadsFixed F.ring e) }
{
    let less = less_one(alloc, offset, columns)?;
    sum_of_columns(alloc, offset, columns)?.mul(alloc, less)
}

/// That the product of two fixed cells is zero.
///
/// Fails only when out of memory.
fn product_constraint<F: Field>(
    alloc: Global,
    offset: usize,
    a: usize,
    b: usize,
) -> Result<SymbolicExpression<F>, AllocError>
    ensures { IfOk result (λ e. ReadsFixed F.ring e) }
{
    fixed_cell(offset, a).mul(alloc, fixed_cell(offset, b))
}
