//! The values of an expression on some rows.
ghost use Rattle.std.specs.Prelude.{◌≡◌, ◌<◌, ◌≤◌, ◌+◌, ◌%◌, ◌∷◌, ◌++◌, ◌==◌, All, IfOk, OnOk, map, not, slice_index_or};
ghost use Rattle.std.specs.List.{zip};
ghost use Rattle.field.specs.Ring.{of_bool, sub_in};
ghost use Rattle.air_expressions.specs.Layout.{LeafFits};
ghost use Rattle.air_expressions.specs.Meaning.{row_at};
ghost use Rattle.air_expressions.specs.Tree.{Tree};
ghost use Rattle.lookup_columns.specs.Columns.{column, leaf_column};
ghost use Rattle.lookup_columns.specs.Slots.{filled_slots};
ghost use Rattle.lookup_columns.specs.Steps.{StepFits, steps_in_order};
ghost use Rattle.lookup_columns.specs.internal.Slots.{slots_after_step};
ghost use Rattle.air.specs.Traces.{height_of, layout_of, traces_of, window_of};
ghost use Rattle.matrix.specs.Matrix.{height, row};

use crate::slots::Slots;
use crate::step::Step;
use air::{BaseEntry, BaseLeaf, Traces, next_row};
use field::{Domain, Field};
use matrix::RowMajorMatrix;
use std::alloc::{AllocError, Global};

/// A cell of a row of the trace of this width that has these values.
fn cell_of<F: Field>(values: &[F], width: usize, r: usize, index: usize) -> F
    requires row_exists { r < height (record { values = values.now; width = width }) }
    requires column_exists { index < width }
    ensures { result ≡ slice_index_or
        (row (record { values = values.now; width = width }) r) index F.ring.zero }
{
    values[r * width + index]
}

/// A cell of the row after a row of the trace of this width that has these values, and so many rows.
fn next_cell<F: Field>(values: &[F], width: usize, num_rows: usize, r: usize, index: usize) -> F
    requires rows { num_rows ≡ height (record { values = values.now; width = width }) }
    requires row_exists { r < num_rows }
    requires column_exists { index < width }
    ensures { result ≡ slice_index_or (row (record { values = values.now; width = width })
        ((r + 1) % num_rows)) index F.ring.zero }
{
    cell_of(values, width, next_row(r, num_rows), index)
}

/// Appends the cells of a column on these rows. The list has its new length before that, so that no cell is
/// appended alone.
fn push_cells<F: Field>(
    to: &mut Vec<F>,
    trace: &RowMajorMatrix<F>,
    rows: &[usize],
    index: usize,
) -> Result<(), AllocError>
    requires rows_exist { All (λ r. r < height trace.now) rows.now }
    requires column_exists { index < trace.now.width }
    ensures { OnOk result (to.new.items ≡ to.old.items ++ map
        (λ r. slice_index_or (row trace.now r) index F.ring.zero) rows.now) }
{
    let (values, width) = (trace.values(), trace.width());
    let first = to.len();
    to.resize(first + rows.len(), F::ZERO)?;
    for i in 0..rows.len() {
        to[first + i] = cell_of(values, width, rows[i], index);
    }
    Ok(())
}

/// Appends the cells of a column on the rows after these, in the same way.
fn push_next_cells<F: Field>(
    to: &mut Vec<F>,
    trace: &RowMajorMatrix<F>,
    rows: &[usize],
    index: usize,
) -> Result<(), AllocError>
    requires rows_exist { All (λ r. r < height trace.now) rows.now }
    requires column_exists { index < trace.now.width }
    ensures { OnOk result (to.new.items ≡ to.old.items ++ map
        (λ r. slice_index_or (row trace.now ((r + 1) % height trace.now)) index F.ring.zero)
        rows.now) }
{
    let num_rows = trace.height();
    let (values, width) = (trace.values(), trace.width());
    let first = to.len();
    to.resize(first + rows.len(), F::ZERO)?;
    for i in 0..rows.len() {
        to[first + i] = next_cell(values, width, num_rows, rows[i], index);
    }
    Ok(())
}

/// Appends the cells of a column on these rows if `offset` is 0, and on the rows after them if it is 1.
fn push_cells_at<F: Field>(
    to: &mut Vec<F>,
    trace: &RowMajorMatrix<F>,
    rows: &[usize],
    offset: usize,
    index: usize,
) -> Result<(), AllocError>
    requires rows_exist { All (λ r. r < height trace.now) rows.now }
    requires offset { offset ≤ 1 }
    requires column_exists { index < trace.now.width }
    ensures { OnOk result (to.new.items ≡ to.old.items ++ map
        (λ r. slice_index_or (row_at offset (row trace.now r)
        (row trace.now ((r + 1) % height trace.now))) index F.ring.zero) rows.now) }
{
    if offset == 0 {
        push_cells(to, trace, rows, index)
    } else {
        push_next_cells(to, trace, rows, index)
    }
}

/// Appends the same element for each row.
pub(crate) fn push_alike<K: Domain>(to: &mut Vec<K>, rows: &[usize], x: K) -> Result<(), AllocError>
    ensures { OnOk result (to.new.items ≡ to.old.items ++ map (λ _. x) rows.now) }
{
    to.extend(rows.iter().map(|_| x))
}

/// Appends one on this row, zero on the others.
fn push_only_on<F: Field>(to: &mut Vec<F>, rows: &[usize], row: usize) -> Result<(), AllocError>
    ensures { OnOk result (to.new.items ≡ to.old.items
        ++ map (λ r. of_bool F.ring (r == row)) rows.now) }
{
    to.extend(rows.iter().map(|r| F::from_bool(*r == row)))
}

/// Appends one on the rows before the last one, zero on the last.
fn push_before_last<F: Field>(
    to: &mut Vec<F>,
    rows: &[usize],
    height: usize,
) -> Result<(), AllocError>
    requires { All (λ r. r < height) rows.now }
    ensures { OnOk result (to.new.items ≡ to.old.items
        ++ map (λ r. of_bool F.ring (not (r + 1 == height))) rows.now) }
{
    to.extend(rows.iter().map(|r| F::from_bool(*r + 1 != height)))
}

/// Appends one on the last row, zero on the others.
fn push_last_one<F: Field>(to: &mut Vec<F>, rows: &[usize], height: usize) -> Result<(), AllocError>
    requires { All (λ r. r < height) rows.now }
    ensures { OnOk result (to.new.items ≡ to.old.items
        ++ map (λ r. of_bool F.ring (r + 1 == height)) rows.now) }
{
    to.extend(rows.iter().map(|r| F::from_bool(*r + 1 == height)))
}

/// Appends the values of a leaf on these rows.
fn push_leaf<F: Field>(
    to: &mut Vec<F>,
    leaf: BaseLeaf<F>,
    traces: &Traces<'_, F>,
    rows: &[usize],
) -> Result<(), AllocError>
    requires fits { LeafFits (layout_of (traces_of traces.now)) leaf }
    requires rows_exist { All (λ r. r < height_of (traces_of traces.now)) rows.now }
    ensures { OnOk result (to.new.items ≡ to.old.items
        ++ leaf_column F.ring (window_of (traces_of traces.now)) rows.now leaf) }
{
    match leaf {
        BaseLeaf::Variable(variable) => {
            let index = variable.index;
            match variable.entry {
                BaseEntry::Main { offset } => push_cells_at(to, traces.main, rows, offset, index),
                BaseEntry::Preprocessed { offset } => match traces.preprocessed {
                    Some(trace) => push_cells_at(to, trace, rows, offset, index),
                    None => unreachable!(),
                },
                BaseEntry::Public => push_alike(to, rows, traces.public_values[index]),
            }
        }
        BaseLeaf::IsFirstRow => push_only_on(to, rows, 0),
        BaseLeaf::IsLastRow => push_last_one(to, rows, traces.main.height()),
        BaseLeaf::IsTransition => push_before_last(to, rows, traces.main.height()),
        BaseLeaf::Constant(x) => push_alike(to, rows, x),
    }
}

/// Appends the sums of both columns, row by row.
fn push_sums<F: Field>(to: &mut Vec<F>, a: &[F], b: &[F]) -> Result<(), AllocError>
    ensures { OnOk result (to.new.items ≡ to.old.items
        ++ map (λ p. F.ring.add p.0 p.1) (zip a.now b.now)) }
{
    to.extend(a.iter().zip(b).map(|(x, y)| *x + *y))
}

/// Appends the differences of both columns, row by row.
fn push_differences<F: Field>(to: &mut Vec<F>, a: &[F], b: &[F]) -> Result<(), AllocError>
    ensures { OnOk result (to.new.items ≡ to.old.items
        ++ map (λ p. sub_in F.ring p.0 p.1) (zip a.now b.now)) }
{
    to.extend(a.iter().zip(b).map(|(x, y)| *x - *y))
}

/// Appends the products of both columns, row by row.
fn push_products<F: Field>(to: &mut Vec<F>, a: &[F], b: &[F]) -> Result<(), AllocError>
    ensures { OnOk result (to.new.items ≡ to.old.items
        ++ map (λ p. F.ring.mul p.0 p.1) (zip a.now b.now)) }
{
    to.extend(a.iter().zip(b).map(|(x, y)| *x * *y))
}

/// Appends the negatives of a column, row by row.
fn push_negatives<F: Field>(to: &mut Vec<F>, a: &[F]) -> Result<(), AllocError>
    ensures { OnOk result (to.new.items ≡ to.old.items ++ map F.ring.neg a.now) }
{
    to.extend(a.iter().map(|x| -*x))
}

/// Fills a slot with the values made of two lists, and puts both lists away.
fn push_made<F: Field>(
    slots: &mut Slots<F>,
    values: Vec<F>,
    left: Vec<F>,
    right: Vec<F>,
) -> Result<(), AllocError>
    ensures { OnOk result (filled_slots slots.new ≡ values.items ∷ filled_slots slots.old) }
{
    slots.put(left)?;
    slots.put(right)?;
    slots.push(values)
}

/// Works out one step on these rows, in a list with room for this many.
fn work_out<F: Field>(
    alloc: Global,
    slots: &mut Slots<F>,
    step: Step<F>,
    traces: &Traces<'_, F>,
    rows: &[usize],
    room: usize,
) -> Result<(), AllocError>
    requires fits { StepFits (layout_of (traces_of traces.now)) step }
    requires rows_exist { All (λ r. r < height_of (traces_of traces.now)) rows.now }
    ensures { OnOk result (filled_slots slots.new ≡ slots_after_step F.ring (window_of (traces_of traces.now))
        rows.now step (filled_slots slots.old)) }
{
    let mut values = slots.take(alloc, room)?;
    match step {
        Step::Leaf(leaf) => {
            push_leaf(&mut values, leaf, traces, rows)?;
            slots.push(values)
        }
        Step::Add => {
            let (left, right) = slots.pop_two(alloc);
            push_sums(&mut values, &left, &right)?;
            push_made(slots, values, left, right)
        }
        Step::Sub => {
            let (left, right) = slots.pop_two(alloc);
            push_differences(&mut values, &left, &right)?;
            push_made(slots, values, left, right)
        }
        Step::Mul => {
            let (left, right) = slots.pop_two(alloc);
            push_products(&mut values, &left, &right)?;
            push_made(slots, values, left, right)
        }
        Step::Neg => {
            let inner = slots.pop(alloc);
            push_negatives(&mut values, &inner)?;
            slots.put(inner)?;
            slots.push(values)
        }
    }
}

/// The values of the expression of these steps on rows of the traces of an AIR, in the order of
/// `rows`. The next row of the last one is the first one.
///
/// Each step is computed once, as a list over all rows. These lists have room for `room` items, so that
/// as many rows need no more memory later. The list that is returned can be put away in `slots` after
/// use. Fails only when out of memory.
pub fn column_of<F: Field>(
    alloc: Global,
    slots: &mut Slots<F>,
    steps: &[Step<F>],
    traces: &Traces<'_, F>,
    rows: &[usize],
    room: usize,
) -> Result<Vec<F>, AllocError>
    requires fits { All (StepFits (layout_of (traces_of traces.now))) steps.now }
    requires rows_exist { All (λ r. r < height_of (traces_of traces.now)) rows.now }
    ensures { (tree : Tree F) → steps.now ≡ steps_in_order tree → IfOk result (λ v. v.items
        ≡ column F.ring (window_of (traces_of traces.now)) rows.now tree) }
{
    slots.clear()?;
    for step in steps {
        work_out(alloc, slots, *step, traces, rows, room)?;
    }
    Ok(slots.pop(alloc))
}
