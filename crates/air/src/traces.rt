//! The traces of an AIR.
ghost use Rattle.std.specs.Prelude.{◌≡◌, ◌<◌, ◌+◌, ◌%◌};
ghost use Rattle.std.specs.Option.{ForSome, option_copied};
ghost use Rattle.matrix.specs.Matrix.{height};

use matrix::RowMajorMatrix;

/// The traces of an AIR and its public values.
#[derive(Drop)]
pub struct Traces<'a, F> {
    /// The main trace.
    pub main: &'a RowMajorMatrix<F>,
    /// The preprocessed trace, if there is one. It is as high as the main trace.
    pub preprocessed: Option<&'a RowMajorMatrix<F>>,
    /// The public values.
    pub public_values: &'a [F],
    // Both traces, if there are two, are equally high.
    pub ghost heights: { ForSome (option_copied preprocessed) (λ m. height m ≡ height main.now) },
}

/// The row after a row of a trace that has this many rows; the first one comes after the last.
pub fn next_row(row: usize, num_rows: usize) -> usize
    requires { row < num_rows }
    ensures next { result ≡ (row + 1) % num_rows }
    ensures exists { result < num_rows }
{
    if row + 1 == num_rows { 0 } else { row + 1 }
}
