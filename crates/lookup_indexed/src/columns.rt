//! The columns of one declaration.
ghost use Rattle.std.specs.Prelude.{◌≡◌, ◌⊎◌, MatchResult};
ghost use Rattle.lookup_indexed.specs.Faults.{AreDistinctColumns, IsFirstColumnFault, NamesTable};

use crate::error::IndexedLookupError;
use std::alloc::Global;
use std::collections::HashSet;

/// Whether each column is below the width, and none is named twice.
///
/// Refuses `ColumnOutOfRange` or `RepeatedColumn` at the first bad column; the range is checked
/// first. Also fails when out of memory, with `Memory`.
pub(crate) fn check_columns(
    alloc: Global,
    table: &str,
    columns: &[usize],
    width: usize,
) -> Result<(), IndexedLookupError>
    ensures { MatchResult result
        (λ _. AreDistinctColumns width columns.now)
        (λ e. (e ≡ IndexedLookupError.Memory) ⊎ IsFirstColumnFault table.now width columns.now e) }
{
    let mut seen = HashSet::new(alloc);
    for column in columns {
        if *column >= width {
            return Err(out_of_range(alloc, table, *column, width));
        }
        if !seen.insert(*column)? {
            return Err(repeated_column(alloc, table, *column));
        }
    }
    Ok(())
}

/// The refusal of a column that is out of range, or out of memory for the table's name.
pub(crate) fn out_of_range(
    alloc: Global,
    table: &str,
    column: usize,
    width: usize,
) -> IndexedLookupError
    ensures { (result ≡ IndexedLookupError.Memory)
        ⊎ NamesTable table.now (λ name. IndexedLookupError.ColumnOutOfRange name column width) result }
{
    match String::from_str(alloc, table) {
        Ok(table) => IndexedLookupError::ColumnOutOfRange {
            table,
            column,
            width,
        },
        Err(_) => IndexedLookupError::Memory,
    }
}

/// The refusal of a column that was named before, or out of memory for the table's name.
fn repeated_column(alloc: Global, table: &str, column: usize) -> IndexedLookupError
    ensures { (result ≡ IndexedLookupError.Memory)
        ⊎ NamesTable table.now (λ name. IndexedLookupError.RepeatedColumn name column) result }
{
    match String::from_str(alloc, table) {
        Ok(table) => IndexedLookupError::RepeatedColumn { table, column },
        Err(_) => IndexedLookupError::Memory,
    }
}
