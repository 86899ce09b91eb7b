//! Tables as traces over a field.
ghost use Rattle.std.specs.Prelude.{◌≡◌, ◌↔◌, IfOk, IsTrue, length, map};
ghost use Rattle.field.specs.Ring.{of_nat};
ghost use Rattle.matrix.specs.Matrix.{IsShaped};
ghost use Rattle.language_meaning.specs.Traces.{HasWholeRows};

use field::PrimeCharacteristicRing;
use field_words::elements_of;
use language::Table;
use matrix::RowMajorMatrix;
use std::alloc::{AllocError, Global};

/// Whether a table has columns and rows, and each row has a number for each column.
pub fn has_whole_rows(table: &Table) -> bool
    ensures { IsTrue result ↔ HasWholeRows (length table.now.names.items)
        (length table.now.cells.items) }
{
    let width = table.names.len();
    width > 0 && !table.cells.is_empty() && table.cells.len() % width == 0
}

/// The trace of a table with whole rows. Fails only when out of memory.
pub fn matrix_of<F: PrimeCharacteristicRing>(
    alloc: Global,
    table: &Table,
) -> Result<RowMajorMatrix<F>, AllocError>
    requires { HasWholeRows (length table.now.names.items) (length table.now.cells.items) }
    ensures { IfOk result (λ m. m ≡ record {
      values = map (of_nat F.ring) table.now.cells.items;
      width = length table.now.names.items;
    }) }
{
    let elements = elements_of(alloc, &table.cells)?;
    Ok(RowMajorMatrix::new(elements, table.names.len()))
}
