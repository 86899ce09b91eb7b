//! What names stand for, and what expressions mean with them.
ghost use Rattle.std.specs.Prelude.{◌≡◌, ◌-◌, map, option_map, position};
ghost use Rattle.std.specs.Str.{bytes_eq};
ghost use Rattle.language.specs.Formulas.{formula_of};
ghost use Rattle.language_meaning.specs.Faults.{IsNameResultOrMemory};
ghost use Rattle.language_meaning.specs.Room.{in_room};
ghost use Rattle.language_meaning.specs.Scopes.{bytes_in, cell_of, boolean_of, defined_of, definition, fixed_name, front_of, meaning, meaning_in, named_in, names_of, next_named, column_number_of, value_in_room, value_within_layers, selector_of};
ghost use Rattle.language_meaning.specs.Values.{meant_of, powers};

use crate::name_fault::{NameFault, NameWhy, refused};
use crate::value::{
    Value, copy_of, difference_of, has_layers, power_of, product_of, room_after, room_after_power,
    sum_of,
};
use language::{Span, Tree};
use std::alloc::Global;

/// A name with the value that it stands for.
#[derive(Debug, Drop)]
pub struct Defined {
    pub name: Vec<u8>,
    pub value: Value,
}

/// What the names in a text stand for. A definition comes before all else, and the first of two
/// with one name before the other.
#[derive(Drop)]
pub struct Scope<'a> {
    /// The text, which the spans of names are of.
    pub text: &'a [u8],
    /// The columns of the main trace.
    pub columns: &'a [Vec<u8>],
    /// The columns of the preprocessed trace, which have `pre.` before their names.
    pub preprocessed: &'a [Vec<u8>],
    /// Definitions, and public values.
    pub defined: &'a [Defined],
}

/// How many layers the value of an expression may have. Walks over values take stack for each.
const MAX_LAYERS: usize = 1024;

/// What an expression means, and how much it leaves of the room for so many nodes: each name is
/// the value that it stands for, and that of the next row the cell there.
///
/// Refuses the first name that stands for nothing, or what comes first with more nodes so far than
/// there is room for: a name or a number, or a power at the first name or number in it. The nodes
/// are counted before anything is copied. Then a value of more than 1,024 layers is refused, at the
/// first name or number.
pub fn value_of(
    alloc: Global,
    scope: &Scope<'_>,
    tree: &Tree,
    room: usize,
) -> Result<(Value, usize), NameFault>
    ensures { IsNameResultOrMemory (in_room meant_of) result
        (meaning (names_of scope.now) (formula_of tree.now) room) }
{
    let (value, left) = value_in(alloc, scope, tree, room)?;
    within_layers(value, front_of(tree), left)
}

/// What an expression times itself less 1 means, which is zero exactly where the expression is 0 or 1. All is
/// as if the product were written out.
///
/// Refuses what `value_of` refuses of that product. Where there is no room for the number 1, or the product
/// has too many layers, that is at the first name or number of the expression.
pub fn boolean_value_of(
    alloc: Global,
    scope: &Scope<'_>,
    tree: &Tree,
    room: usize,
) -> Result<(Value, usize), NameFault>
    ensures { IsNameResultOrMemory (in_room meant_of) result
        (meaning (names_of scope.now) (boolean_of (formula_of tree.now)) room) }
{
    let at = front_of(tree);
    let (first, left) = value_in(alloc, scope, tree, room.saturating_sub(1))?;
    let (second, left) = value_in(alloc, scope, tree, left.saturating_sub(1))?;
    let (one, left) = within(Value::Number(1), at, left)?;
    let value = product_of(alloc, first, difference_of(alloc, second, one)?)?;
    within_layers(value, at, left)
}

/// A value with the room that it leaves, if it has at most 1,024 layers.
fn within_layers(value: Value, at: usize, left: usize) -> Result<(Value, usize), NameFault>
    ensures { IsNameResultOrMemory (in_room meant_of) result
        (value_within_layers at (meant_of value, left)) }
{
    if has_layers(&value, MAX_LAYERS) {
        Ok((value, left))
    } else {
        Err(refused(at, NameWhy::DeepExpression))
    }
}

/// What an expression means, in any number of layers, and how much room it leaves.
fn value_in(
    alloc: Global,
    scope: &Scope<'_>,
    tree: &Tree,
    room: usize,
) -> Result<(Value, usize), NameFault>
    ensures { IsNameResultOrMemory (in_room meant_of) result
        (meaning_in (names_of scope.now) (formula_of tree.now) room) }
{
    let inner = room.saturating_sub(1);
    match tree {
        Tree::Name(span) => named_value(alloc, scope, *span, room),
        Tree::Next(span) => within(next_value(scope, *span)?, span.start, room),
        Tree::Number(number, span) => within(Value::Number(*number), span.start, room),
        Tree::Negative(value) => {
            let (value, room) = value_in(alloc, scope, value, inner)?;
            Ok((Value::Negative(Box::new(alloc, value)?), room))
        }
        Tree::Sum(left, right) => {
            let (left, room) = value_in(alloc, scope, left, inner)?;
            let (right, room) = value_in(alloc, scope, right, room)?;
            Ok((sum_of(alloc, left, right)?, room))
        }
        Tree::Difference(left, right) => {
            let (left, room) = value_in(alloc, scope, left, inner)?;
            let (right, room) = value_in(alloc, scope, right, room)?;
            Ok((difference_of(alloc, left, right)?, room))
        }
        Tree::Product(left, right) => {
            let (left, room) = value_in(alloc, scope, left, inner)?;
            let (right, room) = value_in(alloc, scope, right, room)?;
            Ok((product_of(alloc, left, right)?, room))
        }
        Tree::Power(base, exponent) => {
            let (value, _) = value_in(alloc, scope, base, room)?;
            power_within(alloc, &value, *exponent, front_of(base), room)
        }
    }
}

/// Where the first name or number of an expression begins.
fn front_of(tree: &Tree) -> usize
    ensures { result ≡ front_of (formula_of tree.now) }
{
    match tree {
        Tree::Name(span) | Tree::Next(span) | Tree::Number(_, span) => span.start,
        Tree::Negative(inner) => front_of(inner),
        Tree::Sum(left, _) | Tree::Difference(left, _) | Tree::Product(left, _) => front_of(left),
        Tree::Power(base, _) => front_of(base),
    }
}

/// A value with the room that it leaves, if there is room for it.
fn within(value: Value, at: usize, room: usize) -> Result<(Value, usize), NameFault>
    ensures { IsNameResultOrMemory (in_room meant_of) result (value_in_room at room (meant_of value)) }
{
    match room_after(&value, room) {
        Some(left) => Ok((value, left)),
        None => Err(refused(at, NameWhy::LargeExpression)),
    }
}

/// A copy of a value with the room that it leaves, if there is room for it.
fn copy_within(
    alloc: Global,
    value: &Value,
    at: usize,
    room: usize,
) -> Result<(Value, usize), NameFault>
    ensures { IsNameResultOrMemory (in_room meant_of) result (value_in_room at room (meant_of value.now)) }
{
    match room_after(value, room) {
        Some(left) => Ok((copy_of(alloc, value)?, left)),
        None => Err(refused(at, NameWhy::LargeExpression)),
    }
}

/// A power with the room that it leaves, if there is room for it.
fn power_within(
    alloc: Global,
    base: &Value,
    exponent: u64,
    at: usize,
    room: usize,
) -> Result<(Value, usize), NameFault>
    ensures { IsNameResultOrMemory (in_room meant_of) result
        (value_in_room at room (powers (exponent - 1) (meant_of base.now))) }
{
    match room_after_power(base, exponent, room) {
        Some(left) => Ok((power_of(alloc, base, exponent)?, left)),
        None => Err(refused(at, NameWhy::LargeExpression)),
    }
}

/// The value that a name stands for, and how much room it leaves.
#[tactic(auto, unfolding(crate::specs::Scopes::meaning_of_name))]
fn named_value(
    alloc: Global,
    scope: &Scope<'_>,
    span: Span,
    room: usize,
) -> Result<(Value, usize), NameFault>
    ensures { IsNameResultOrMemory (in_room meant_of) result (named_in (names_of scope.now) span room) }
{
    let name = bytes_of(scope.text, span);
    if let Some(value) = defined_value(scope.defined, name) {
        return copy_within(alloc, value, span.start, room);
    }
    if let Some(value) = selector(name) {
        return within(value, span.start, room);
    }
    match cell(scope, name, 0) {
        Some(value) => within(value, span.start, room),
        None => Err(refused(span.start, NameWhy::UnknownName)),
    }
}

/// The cell of the next row that a name stands for.
#[tactic(auto, unfolding(crate::specs::Scopes::next_named))]
fn next_value(scope: &Scope<'_>, span: Span) -> Result<Value, NameFault>
    ensures { IsNameResultOrMemory meant_of result (next_named (names_of scope.now) span) }
{
    match cell(scope, bytes_of(scope.text, span), 1) {
        Some(value) => Ok(value),
        None => Err(refused(span.start, NameWhy::UnknownColumn)),
    }
}

/// The bytes of a span, none where it is not within the text.
pub fn bytes_of(text: &[u8], span: Span) -> &[u8]
    ensures { result.now ≡ bytes_in span text.now }
{
    if span.start <= span.end && span.end <= text.len() {
        &text[span.start..span.end]
    } else {
        &text[..0]
    }
}

/// The value of the first definition of a name.
pub(crate) fn defined_value<'a>(defined: &'a [Defined], name: &[u8]) -> Option<&'a Value>
    ensures { option_map (λ v. meant_of v.now) result
        ≡ definition name.now (map defined_of defined.now) }
{
    for item in defined {
        if item.name.as_slice() == name {
            return Some(&item.value);
        }
    }
    None
}

/// The selector of this name.
#[tactic(auto, unfolding(crate::specs::Scopes::selector_of))]
fn selector(name: &[u8]) -> Option<Value>
    ensures { option_map meant_of result ≡ selector_of name.now }
{
    if is(name, "is_first_row") {
        Some(Value::FirstRow)
    } else if is(name, "is_last_row") {
        Some(Value::LastRow)
    } else if is(name, "is_transition") {
        Some(Value::Transition)
    } else {
        None
    }
}

fn is(bytes: &[u8], word: &str) -> bool
    ensures { result ≡ bytes_eq bytes.now word.now }
{
    bytes == word.as_bytes()
}

/// The cell of the column with this name, in the current row or the next one.
#[tactic(auto, unfolding(crate::specs::Scopes::cell_of))]
fn cell(scope: &Scope<'_>, name: &[u8], offset: usize) -> Option<Value>
    ensures { option_map meant_of result ≡ cell_of (names_of scope.now) name.now offset }
{
    match without_prefix(name) {
        Some(fixed) => match place(scope.preprocessed, fixed) {
            Some(column) => Some(Value::Preprocessed { offset, column }),
            None => None,
        },
        None => match place(scope.columns, name) {
            Some(column) => Some(Value::Main { offset, column }),
            None => None,
        },
    }
}

/// What stands behind `pre.`, if a name begins so.
fn without_prefix(name: &[u8]) -> Option<&[u8]>
    ensures { option_map (λ x. x.now) result ≡ fixed_name name.now }
{
    if name.len() >= 4 && is(&name[..4], "pre.") {
        Some(&name[4..])
    } else {
        None
    }
}

/// The number of the first column with a name.
fn place(columns: &[Vec<u8>], name: &[u8]) -> Option<usize>
    ensures { result ≡ column_number_of name.now (map (λ column. column.items) columns.now) }
{
    first_place(columns, name)
}

fn first_place(columns: &[Vec<u8>], name: &[u8]) -> Option<usize>
    ensures { result ≡ position (λ column. bytes_eq column.items name.now) columns.now }
{
    columns.iter().position(|column| column.as_slice() == name)
}
