//! The AIRs of the tests.
ghost use Rattle.std.specs.Prelude.{◌≡◌, OnOk};

use air::{
    Air, AirBuilder, AirError, BaseAir, Expression, ExtensionBuilder, LayoutPart,
    PermutationAirBuilder, next_cell,
};
use field::{Field, PrimeCharacteristicRing};
use matrix::WindowAccess;
use std::alloc::{AllocError, Global};

/// What a machine asserts.
#[derive(Clone, Copy)]
pub enum Claim {
    /// The next cell is the current one and 1, on each row or on each but the last.
    Counts { on_every_row: bool },
    /// This is zero in the extension, on the last row.
    OnLastRow(u32),
    /// The product, the sum and the difference of a cell of the current row and one of the next
    /// are zero: on the first row, on the last row, and on each but the last.
    IsSelected,
    /// Both cells of the permutation trace, the challenge, the value, the cell and the public value add up
    /// to zero.
    AddsUp,
    /// One constraint of the preprocessed trace, and three over the extension.
    IsOfBothKinds,
}

/// An AIR of so many columns and public values.
#[derive(Clone, Copy)]
pub struct Machine {
    pub width: usize,
    pub num_public_values: usize,
    pub claim: Claim,
}

impl<F> BaseAir<F> for Machine {
    ghost width = { λ m. m.width };

    ghost preprocessed_width = { λ _. 0 };

    ghost num_public_values = { λ m. m.num_public_values };

    fn width(&self) -> usize {
        self.width
    }

    fn preprocessed_width(&self) -> usize {
        0
    }

    fn num_public_values(&self) -> usize {
        self.num_public_values
    }
}

impl<AB: PermutationAirBuilder> Air<AB> for Machine {
    ghost evaluates = { λ _ before answer after. OnOk answer (AB.layout after ≡ AB.layout before) };

    fn eval(&self, alloc: Global, builder: &mut AB) -> Result<(), AirError> {
        match self.claim {
            Claim::Counts { on_every_row } => assert_counted(alloc, builder, on_every_row),
            Claim::OnLastRow(n) => assert_ext_on(alloc, builder, true, number::<AB>(n)),
            Claim::IsSelected => assert_selected(alloc, builder),
            Claim::AddsUp => assert_sum_of_all(alloc, builder),
            Claim::IsOfBothKinds => assert_both_kinds(alloc, builder),
        }
    }

    ghost keeps_layout = { λ air before after h. h };
}

/// The rows on which something is asserted.
#[derive(Clone, Copy)]
enum Rows {
    All,
    First,
    Last,
    ButLast,
}

/// What an expression is built of.
#[derive(Clone, Copy)]
enum Value {
    /// A cell of the current row.
    Current(usize),
    /// One of the first two cells of the next row.
    Next(usize),
    /// The constant 1.
    One,
    /// The first cell of the preprocessed trace.
    Fixed,
    /// The first public value.
    Public,
    /// The selector of the first row.
    IsFirstRow,
    /// A cell of the permutation trace's current row.
    PermutationCurrent(usize),
    /// A cell of the permutation trace's next row.
    PermutationNext(usize),
    /// A challenge.
    Challenge(usize),
    /// The first permutation value.
    PermutationValue,
}

/// What is done with two values.
#[derive(Clone, Copy)]
enum Operation {
    Add,
    Sub,
    Mul,
}

/// An expression, where there was one to be had.
type Built<E> = Result<E, AirError>;

/// The expression of a value, where there is one.
fn found<T: Into<E>, E>(value: Option<T>) -> Built<E> {
    match value {
        Some(value) => Ok(value.into()),
        None => {
            Err(AirError::LayoutMismatch {
                part: LayoutPart::Main,
                expected: 2,
                actual: 0,
            })
        }
    }
}

fn combined<F: Field, E: Expression<F>>(
    alloc: Global,
    operation: Operation,
    x: E,
    y: E,
) -> Result<E, AllocError> {
    match operation {
        Operation::Add => x.add(alloc, y),
        Operation::Sub => x.sub(alloc, y),
        Operation::Mul => x.mul(alloc, y),
    }
}

/// The expression of a value of the base field.
fn expression_of<AB: AirBuilder>(alloc: Global, builder: &AB, value: Value) -> Built<AB::Expr> {
    match value {
        Value::Current(index) => found(builder.main(alloc)?.current(index)),
        Value::Next(index) if index < 2 => next_cell(alloc, builder, 2, index),
        Value::One => Ok(AB::Expr::constant(AB::F::ONE)),
        Value::Fixed => found(builder.preprocessed().current(0)),
        Value::Public => found(builder.public_values().first().copied()),
        Value::IsFirstRow => Ok(builder.is_first_row()),
        _ => found(None::<AB::Var>),
    }
}

/// A value, and then what is done with it and further values, in order.
fn built<AB: AirBuilder>(
    alloc: Global,
    builder: &AB,
    first: Value,
    further: &[(Operation, Value)],
) -> Built<AB::Expr> {
    let mut all = expression_of(alloc, builder, first)?;
    for (operation, value) in further {
        let next = expression_of(alloc, builder, *value)?;
        all = combined::<AB::F, AB::Expr>(alloc, *operation, all, next)?;
    }
    Ok(all)
}

/// Asserts that this is zero on these rows.
fn assert_on<AB: AirBuilder>(
    alloc: Global,
    builder: &mut AB,
    rows: Rows,
    left: AB::Expr,
) -> Result<(), AirError>
    ensures { OnOk result (AB.layout builder.new ≡ AB.layout builder.old) }
{
    match rows {
        Rows::All => builder.assert_zero(alloc, left),
        Rows::First => builder.when_first_row().assert_zero(alloc, left),
        Rows::Last => builder.when_last_row().assert_zero(alloc, left),
        Rows::ButLast => builder.when_transition().assert_zero(alloc, left),
    }
}

/// Asserts that what is built of these values is zero on these rows.
fn assert_built<AB: AirBuilder>(
    alloc: Global,
    builder: &mut AB,
    rows: Rows,
    first: Value,
    further: &[(Operation, Value)],
) -> Result<(), AirError>
    ensures { OnOk result (AB.layout builder.new ≡ AB.layout builder.old) }
{
    let left = built(alloc, &*builder, first, further)?;
    assert_on(alloc, builder, rows, left)
}

/// The cell of the next row without that of the current one and without 1 is zero.
fn assert_counted<AB: AirBuilder>(
    alloc: Global,
    builder: &mut AB,
    on_every_row: bool,
) -> Result<(), AirError>
    ensures { OnOk result (AB.layout builder.new ≡ AB.layout builder.old) }
{
    let further = [
        (Operation::Sub, Value::Current(0)),
        (Operation::Sub, Value::One),
    ];
    let rows = if on_every_row {
        Rows::All
    } else {
        Rows::ButLast
    };
    assert_built(alloc, builder, rows, Value::Next(0), &further)
}

fn number<AB: ExtensionBuilder>(n: u32) -> AB::ExprEF {
    AB::ExprEF::constant(AB::EF::from_u32(n))
}

/// Asserts that this is zero in the extension, on each row or on the last one.
fn assert_ext_on<AB: ExtensionBuilder>(
    alloc: Global,
    builder: &mut AB,
    on_last_row: bool,
    left: AB::ExprEF,
) -> Result<(), AirError>
    ensures { OnOk result (AB.layout builder.new ≡ AB.layout builder.old) }
{
    if on_last_row {
        builder.when_last_row().assert_zero_ext(alloc, left)
    } else {
        builder.assert_zero_ext(alloc, left)
    }
}

fn assert_selected<AB: AirBuilder>(alloc: Global, builder: &mut AB) -> Result<(), AirError>
    ensures { OnOk result (AB.layout builder.new ≡ AB.layout builder.old) }
{
    let (current, next) = (Value::Current(0), Value::Next(1));
    assert_built(
        alloc,
        builder,
        Rows::First,
        current,
        &[(Operation::Mul, next)],
    )?;
    assert_built(
        alloc,
        builder,
        Rows::Last,
        current,
        &[(Operation::Add, next)],
    )?;
    assert_built(
        alloc,
        builder,
        Rows::ButLast,
        current,
        &[(Operation::Sub, next)],
    )
}

/// The expression of a value of the extension, or of one of the base field, embedded.
fn ext_expression_of<AB: PermutationAirBuilder>(
    alloc: Global,
    builder: &AB,
    value: Value,
) -> Built<AB::ExprEF> {
    match value {
        Value::PermutationCurrent(index) => found(builder.permutation(alloc)?.current(index)),
        Value::PermutationNext(index) => found(builder.permutation(alloc)?.next(index)),
        Value::Challenge(index) => found(builder.permutation_randomness().get(index).copied()),
        Value::PermutationValue => found(builder.permutation_values().first().copied()),
        base => Ok(AB::lift(expression_of(alloc, builder, base)?)),
    }
}

/// A value, and then what is done with it and further values, in order, in the extension.
fn ext_built<AB: PermutationAirBuilder>(
    alloc: Global,
    builder: &AB,
    first: Value,
    further: &[(Operation, Value)],
) -> Built<AB::ExprEF> {
    let mut all = ext_expression_of(alloc, builder, first)?;
    for (operation, value) in further {
        let next = ext_expression_of(alloc, builder, *value)?;
        all = combined::<AB::EF, AB::ExprEF>(alloc, *operation, all, next)?;
    }
    Ok(all)
}

/// Asserts that what is built of these values is zero in the extension, on each row or on the
/// last one.
fn assert_ext_built<AB: PermutationAirBuilder>(
    alloc: Global,
    builder: &mut AB,
    on_last_row: bool,
    first: Value,
    further: &[(Operation, Value)],
) -> Result<(), AirError>
    ensures { OnOk result (AB.layout builder.new ≡ AB.layout builder.old) }
{
    let left = ext_built(alloc, &*builder, first, further)?;
    assert_ext_on(alloc, builder, on_last_row, left)
}

fn assert_sum_of_all<AB: PermutationAirBuilder>(
    alloc: Global,
    builder: &mut AB,
) -> Result<(), AirError>
    ensures { OnOk result (AB.layout builder.new ≡ AB.layout builder.old) }
{
    let further = [
        (Operation::Add, Value::PermutationNext(0)),
        (Operation::Add, Value::Challenge(0)),
        (Operation::Add, Value::PermutationValue),
        (Operation::Add, Value::Current(0)),
        (Operation::Add, Value::Public),
    ];
    assert_ext_built(
        alloc,
        builder,
        false,
        Value::PermutationCurrent(0),
        &further,
    )
}

/// Asserts the second cell of the next row of the permutation trace; the first preprocessed cell;
/// the first permutation value, on the last row; and the selector of the first row, embedded, times
/// the second challenge.
fn assert_both_kinds<AB: PermutationAirBuilder>(
    alloc: Global,
    builder: &mut AB,
) -> Result<(), AirError>
    ensures { OnOk result (AB.layout builder.new ≡ AB.layout builder.old) }
{
    assert_ext_built(alloc, builder, false, Value::PermutationNext(1), &[])?;
    assert_built(alloc, builder, Rows::All, Value::Fixed, &[])?;
    assert_ext_built(alloc, builder, true, Value::PermutationValue, &[])?;
    let challenge = [(Operation::Mul, Value::Challenge(1))];
    assert_ext_built(alloc, builder, false, Value::IsFirstRow, &challenge)
}
