//! Values over columns by their numbers.
ghost use Rattle.std.specs.Prelude.{◌≡◌, ◌-◌, ◌+◌, ◌<◌, ◌≤◌, ◌↔◌, IfOk, IsTrue, MatchOption};
ghost use Rattle.language_meaning.specs.Values.{difference, layers_of, meant_of, powers, product, node_count_of, sum};

use std::alloc::{AllocError, Global};

/// An expression over cells, public values, selectors and numbers.
#[derive(Debug, Drop)]
pub enum Value {
    /// A column of the main trace, in the current row at offset 0 and the next one at 1.
    Main { offset: usize, column: usize },
    /// A column of the preprocessed trace, likewise.
    Preprocessed { offset: usize, column: usize },
    /// A public value, by its number.
    Public(usize),
    /// One on the first row, zero elsewhere.
    FirstRow,
    /// One on the last row, zero elsewhere.
    LastRow,
    /// One on every row but the last, zero there.
    Transition,
    Number(u64),
    Negative(Box<Value>),
    Sum(Box<Value>, Box<Value>),
    Difference(Box<Value>, Box<Value>),
    Product(Box<Value>, Box<Value>),
}

pub(crate) fn sum_of(alloc: Global, left: Value, right: Value) -> Result<Value, AllocError>
    ensures { IfOk result (λ r. meant_of r ≡ sum (meant_of left) (meant_of right)) }
{
    Ok(Value::Sum(Box::new(alloc, left)?, Box::new(alloc, right)?))
}

pub(crate) fn difference_of(alloc: Global, left: Value, right: Value) -> Result<Value, AllocError>
    ensures { IfOk result (λ r. meant_of r ≡ difference (meant_of left) (meant_of right)) }
{
    Ok(Value::Difference(Box::new(alloc, left)?, Box::new(alloc, right)?))
}

pub(crate) fn product_of(alloc: Global, left: Value, right: Value) -> Result<Value, AllocError>
    ensures { IfOk result (λ r. meant_of r ≡ product (meant_of left) (meant_of right)) }
{
    Ok(Value::Product(Box::new(alloc, left)?, Box::new(alloc, right)?))
}

/// A deep copy. Fails only when out of memory.
pub fn copy_of(alloc: Global, value: &Value) -> Result<Value, AllocError>
    ensures { IfOk result (λ r. meant_of r ≡ meant_of value.now) }
{
    match value {
        Value::Main { offset, column } => Ok(Value::Main {
            offset: *offset,
            column: *column,
        }),
        Value::Preprocessed { offset, column } => {
            Ok(Value::Preprocessed {
                offset: *offset,
                column: *column,
            })
        }
        Value::Public(index) => Ok(Value::Public(*index)),
        Value::FirstRow => Ok(Value::FirstRow),
        Value::LastRow => Ok(Value::LastRow),
        Value::Transition => Ok(Value::Transition),
        Value::Number(number) => Ok(Value::Number(*number)),
        Value::Negative(inner) => Ok(Value::Negative(Box::new(alloc, copy_of(alloc, inner)?)?)),
        Value::Sum(left, right) => {
            let left = copy_of(alloc, left)?;
            let right = copy_of(alloc, right)?;
            sum_of(alloc, left, right)
        }
        Value::Difference(left, right) => {
            let left = copy_of(alloc, left)?;
            let right = copy_of(alloc, right)?;
            difference_of(alloc, left, right)
        }
        Value::Product(left, right) => {
            let left = copy_of(alloc, left)?;
            let right = copy_of(alloc, right)?;
            product_of(alloc, left, right)
        }
    }
}

/// A power with this exponent, as products from the left; for exponent 0, the base itself.
pub(crate) fn power_of(alloc: Global, base: &Value, exponent: u64) -> Result<Value, AllocError>
    ensures { IfOk result (λ r. meant_of r ≡ powers (exponent - 1) (meant_of base.now)) }
{
    let mut product = copy_of(alloc, base)?;
    for _ in 0..exponent.saturating_sub(1) {
        let factor = copy_of(alloc, base)?;
        product = product_of(alloc, product, factor)?;
    }
    Ok(product)
}

/// How much room a value leaves, of room for so many nodes; `None` where it has more nodes.
#[tactic(auto, using(crate::proofs::ValueLaws::size_of_positive))]
pub(crate) fn room_after(value: &Value, room: usize) -> Option<usize>
    ensures { MatchOption result (room < node_count_of (meant_of value.now))
        (λ left. left + node_count_of (meant_of value.now) ≡ room) }
{
    let inner = room.checked_sub(1)?;
    match value {
        Value::Negative(value) => room_after(value, inner),
        Value::Sum(left, right) | Value::Difference(left, right) | Value::Product(left, right) =>
            room_after(right, room_after(left, inner)?),
        _ => Some(inner),
    }
}

/// How much room a power leaves, of room for so many nodes; `None` where it has more nodes. The
/// power is not made.
#[tactic(auto, using(crate::proofs::ValueLaws::size_of_powers))]
pub(crate) fn room_after_power(base: &Value, exponent: u64, room: usize) -> Option<usize>
    ensures { let power = powers (exponent - 1) (meant_of base.now) in
        MatchOption result (room < node_count_of power) (λ left. left + node_count_of power ≡ room) }
{
    let size = room - room_after(base, room)?;
    let further = exponent.saturating_sub(1) as usize;
    let copies = further.checked_mul(size)?;
    let nodes = copies.checked_add(further)?.checked_add(size)?;
    room.checked_sub(nodes)
}

/// Whether a value has at most so many layers. Looks no deeper than that.
#[tactic(auto, using(crate::proofs::ValueLaws::layers_of_positive))]
pub(crate) fn has_layers(value: &Value, most: usize) -> bool
    ensures { IsTrue result ↔ (layers_of (meant_of value.now) ≤ most) }
{
    if most == 0 {
        return false;
    }
    match value {
        Value::Negative(value) => has_layers(value, most - 1),
        Value::Sum(left, right) | Value::Difference(left, right) | Value::Product(left, right) =>
            has_layers(left, most - 1) && has_layers(right, most - 1),
        _ => true,
    }
}
