//! The cells of a row, as expressions to build with.
ghost use Rattle.std.specs.Prelude.{◌≡◌, ◌<◌, ◌≤◌, ◌⊎◌, ℕ, All, IfErr, IfOk};
ghost use Rattle.std.specs.List.{AllZip};
ghost use Rattle.air.specs.Cell.{IsCell, IsCellRefusal, IsCellsRefusal, IsNarrow};

use air_expressions::{AirBuilder, AirError, LayoutPart};
use matrix::WindowAccess;
use std::alloc::Global;

/// The refusal of rows of `actual` cells, for an AIR of `width` columns.
fn narrow(width: usize, actual: usize) -> AirError
    ensures { actual < width → IsNarrow actual width result }
{
    AirError::LayoutMismatch {
        part: LayoutPart::Main,
        expected: width,
        actual,
    }
}

/// The expression of a cell of the current row of the main trace, for an AIR of `width` columns.
///
/// Fails with the builder's own refusal if it can't provide its window, or with `LayoutMismatch` of
/// the main width, which names `width` and that of the rows, if these have no such column.
pub fn current_cell<AB: AirBuilder>(
    alloc: Global,
    builder: &AB,
    width: usize,
    column: usize,
) -> Result<AB::Expr, AirError>
    requires { column < width }
    ensures cell { IfOk result (IsCell (λ x w. AB.Expr.value x (AB.seen w))
        (AB.stands_for builder.now) (λ w. w.main) column) }
    ensures degree { IfOk result (λ x. (t : ℕ) → AB.Expr.degree x t ≤ 1) }
    ensures within { IfOk result (λ x. AB.Expr.within (AB.layout builder.now) x) }
    ensures refused { IfErr result (IsCellRefusal AB.window_refuses AB.layout width builder.now) }
    ensures found { column < (AB.layout builder.now).main_width
        → IfErr result (AB.window_refuses builder.now) }
{
    let main = builder.main(alloc)?;
    match main.current(column) {
        Some(variable) => Ok(variable.into()),
        None => Err(narrow(width, main.current_slice().len())),
    }
}

/// The expression of a cell of the next row of the main trace, for an AIR of `width` columns.
///
/// Fails as [`current_cell`] does.
pub fn next_cell<AB: AirBuilder>(
    alloc: Global,
    builder: &AB,
    width: usize,
    column: usize,
) -> Result<AB::Expr, AirError>
    requires { column < width }
    ensures cell { IfOk result (IsCell (λ x w. AB.Expr.value x (AB.seen w))
        (AB.stands_for builder.now) (λ w. w.main_next) column) }
    ensures degree { IfOk result (λ x. (t : ℕ) → AB.Expr.degree x t ≤ 1) }
    ensures within { IfOk result (λ x. AB.Expr.within (AB.layout builder.now) x) }
    ensures refused { IfErr result (IsCellRefusal AB.window_refuses AB.layout width builder.now) }
    ensures found { column < (AB.layout builder.now).main_width
        → IfErr result (AB.window_refuses builder.now) }
{
    let main = builder.main(alloc)?;
    match main.next(column) {
        Some(variable) => Ok(variable.into()),
        None => Err(narrow(width, main.next_slice().len())),
    }
}

/// The expressions of cells of the current row of the main trace, for an AIR of `width` columns, in
/// the order of `columns`: a tuple to look up.
///
/// Fails as [`current_cell`] does, or when out of memory.
pub fn current_cells<AB: AirBuilder>(
    alloc: Global,
    builder: &AB,
    width: usize,
    columns: &[usize],
) -> Result<Vec<AB::Expr>, AirError>
    requires { All (λ column. column < width) columns.now }
    ensures cells { IfOk result (λ tuple. AllZip (IsCell (λ x w. AB.Expr.value x (AB.seen w))
        (AB.stands_for builder.now) (λ w. w.main)) columns.now tuple.items) }
    ensures within { IfOk result (λ tuple. All
        (AB.Expr.within (AB.layout builder.now)) tuple.items) }
    ensures refused { IfErr result (IsCellsRefusal AB.window_refuses AB.layout width builder.now) }
    ensures found { All (λ column. column < (AB.layout builder.now).main_width) columns.now
        → IfErr result (λ e. (e ≡ AirError.Memory) ⊎ AB.window_refuses builder.now e) }
{
    let mut tuple = Vec::with_capacity(alloc, columns.len())?;
    for column in columns {
        tuple.push(current_cell(alloc, builder, width, *column)?)?;
    }
    Ok(tuple)
}
