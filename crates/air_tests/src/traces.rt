//! Traces for the tests.
ghost use Rattle.std.specs.Prelude.{◌≡◌, None, []};

use field::F7;
use matrix::RowMajorMatrix;
use std::alloc::{AllocError, Global};

fn elements(alloc: Global, values: &[u32]) -> Result<Vec<F7>, AllocError> {
    let mut all = Vec::new(alloc);
    for value in values {
        all.push(F7::new(*value))?;
    }
    Ok(all)
}

/// A trace of these values, where they make whole rows.
pub fn trace_of(alloc: Global, values: &[u32], width: usize) -> Option<RowMajorMatrix<F7>> {
    let all = elements(alloc, values).ok()?;
    if width == 0 || all.len() % width != 0 {
        return None;
    }
    Some(RowMajorMatrix::new(all, width))
}

/// A trace without columns.
pub fn no_trace(alloc: Global) -> RowMajorMatrix<F7>
    ensures { result ≡ record { values = []; width = 0 } }
{
    RowMajorMatrix::new(Vec::new(alloc), 0)
}

/// No preprocessed trace beside this one.
pub fn no_preprocessed<'a>(_main: &'a RowMajorMatrix<F7>) -> Option<&'a RowMajorMatrix<F7>>
    ensures { result ≡ None }
{
    None
}
