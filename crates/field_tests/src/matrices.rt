ghost use Rattle.std.specs.Prelude.{◌≡◌, IfSome};

use crate::cases::holds;
use matrix::{RowMajorMatrix, RowWindow, ViewPair, WindowAccess};
use std::alloc::{AllocError, Global};

/// A matrix of two columns with these rows.
fn matrix_of(alloc: Global, values: &[u8]) -> Option<RowMajorMatrix<u8>>
    ensures { IfSome result (λ m. m ≡ record { values = values.now; width = 2 }) }
{
    if values.len() % 2 != 0 {
        return None;
    }
    Some(RowMajorMatrix::new(Vec::from_slice(alloc, values).ok()?, 2))
}

/// Whether this is the row at this index.
fn has_row(matrix: &RowMajorMatrix<u8>, index: usize, row: &[u8]) -> bool {
    index < matrix.height() && matrix.row_slice(index) == row
}

#[test]
fn rows_lie_one_after_the_other(rt: HostRuntime) {
    let values = [1, 2, 3, 4, 5, 6];
    let Some(matrix) = matrix_of(rt.alloc(), &values) else {
        return holds(&rt, "there is a matrix", false);
    };
    holds(&rt, "width", matrix.width() == 2);
    holds(&rt, "height", matrix.height() == 3);
    holds(&rt, "row 0", has_row(&matrix, 0, &[1, 2]));
    holds(&rt, "row 1", has_row(&matrix, 1, &[3, 4]));
    holds(&rt, "row 2", has_row(&matrix, 2, &[5, 6]));
    holds(&rt, "values", matrix.values() == values.as_slice());
    let moved = matrix.into_values();
    holds(&rt, "moved values", moved.as_slice() == values.as_slice());
}

#[test]
fn width_zero_has_no_rows(rt: HostRuntime) {
    let matrix = RowMajorMatrix::<u8>::new(Vec::new(rt.alloc()), 0);
    holds(&rt, "width", matrix.width() == 0);
    holds(&rt, "height", matrix.height() == 0);
    holds(&rt, "current", matrix.current(0).is_none());
    holds(&rt, "next", matrix.next(0).is_none());
}

/// Whether a window has the rows 1, 2 and 3, 4, through the bound.
fn has_two_rows<W: WindowAccess<u8>>(window: &W) -> bool
    requires { W.readable window.now }
{
    let current = [window.current(0), window.current(1), window.current(2)];
    let next = [window.next(0), window.next(1), window.next(2)];
    current == [Some(1), Some(2), None] && next == [Some(3), Some(4), None]
}

/// Whether a copy of a window has the same rows.
fn copies(window: &RowWindow<'_, u8>) -> bool {
    match window.clone() {
        Ok(copy) => copy.current(1) == Some(2),
        Err(_) => false,
    }
}

#[test]
fn windows_have_a_current_row_and_a_next_one(rt: HostRuntime) {
    let (top, bottom) = ([1, 2], [3, 4]);
    let window = RowWindow::from_two_rows(top.as_slice(), bottom.as_slice());
    holds(&rt, "cells", has_two_rows(&window));
    let pair = ViewPair {
        top: window.current_slice(),
        bottom: window.next_slice(),
    };
    let copied = pair;
    holds(&rt, "current row", copied.top == top.as_slice());
    holds(&rt, "next row", copied.bottom == bottom.as_slice());
    holds(&rt, "both copies", copied.bottom == pair.bottom);
    holds(&rt, "copied window", copies(&window));
}

#[test]
fn two_rows_are_a_window(rt: HostRuntime) {
    let Some(matrix) = matrix_of(rt.alloc(), &[1, 2, 3, 4]) else {
        return holds(&rt, "there is a matrix", false);
    };
    holds(&rt, "cells", has_two_rows(&matrix));
}
