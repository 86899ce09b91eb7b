//! Matrices that store their values row after row.
ghost use Rattle.std.specs.Prelude.{◌≡◌, ℕ, ◌+◌, ◌*◌, ◌<◌, length, vec_len};
ghost use Rattle.matrix.specs.Matrix.{IsShaped, Matrix, height, row};

use crate::window::WindowAccess;
use std::marker::Model;

/// A matrix that stores its values row after row.
#[derive(Debug, Drop)]
pub struct RowMajorMatrix<T> {
    values: Vec<T>,
    width: usize,
}

impl<T> Model for RowMajorMatrix<T> {
    ghost use Rattle.matrix.specs.Matrix.{IsShaped, Matrix};

    ghost Value = { Matrix T };

    ghost view = { λ m. record { values = m.values.items; width = m.width } };

    ghost invariant = { λ m. IsShaped (record { values = m.values.items; width = m.width }) };
}

impl<T> RowMajorMatrix<T> {
    /// The matrix with these values, row after row, in rows of `width`.
    pub fn new(values: Vec<T>, width: usize) -> Self
        requires { IsShaped (record { values = values.items; width = width }) }
        ensures { result ≡ record { values = values.items; width = width } }
    {
        RowMajorMatrix { values, width }
    }

    /// How many values a row has.
    pub fn width(&self) -> usize
        ensures width { result ≡ self.now.width }
        ensures shaped { IsShaped self.now }
    {
        let _values = &self.values;
        self.width
    }

    /// How many rows there are, 0 if the width is 0.
    pub fn height(&self) -> usize
        ensures height { result ≡ height self.now }
        ensures shaped { IsShaped self.now }
    {
        if self.width == 0 {
            0
        } else {
            self.values.len() / self.width
        }
    }

    /// Row `r`.
    pub fn row_slice(&self, r: usize) -> &[T]
        requires { r < height self.now }
        ensures row { result.now ≡ row self.now r }
        ensures len { length result.now ≡ self.now.width }
    {
        &self.values[r * self.width..(r + 1) * self.width]
    }

    /// All values, row after row.
    pub fn values(&self) -> &[T]
        ensures values { result.now ≡ self.now.values }
        ensures shaped { IsShaped self.now }
    {
        self.values.as_slice()
    }

    /// All values, row after row; consumes the matrix.
    pub fn into_values(self) -> Vec<T>
        ensures { result.items ≡ self.values }
    {
        let RowMajorMatrix { values, width: _ } = self;
        values
    }
}

/// A matrix of two rows is a window, and so is one of width 0.
impl<T: Copy> WindowAccess<T> for RowMajorMatrix<T> {
    ghost use Rattle.std.specs.Prelude.{◌≡◌, ◌*◌, length};
    ghost use Rattle.matrix.specs.Matrix.{row};
    ghost use Rattle.matrix.specs.TwoRows.{same_length};

    ghost readable = { λ m. length m.values ≡ 2 * m.width };

    ghost current = { λ m. row m 0 };

    ghost next = { λ m. row m 1 };

    ghost same_length = { same_length };

    fn current_slice(&self) -> &[T] {
        &self.values[..self.width]
    }

    fn next_slice(&self) -> &[T] {
        &self.values[self.width..]
    }
}
