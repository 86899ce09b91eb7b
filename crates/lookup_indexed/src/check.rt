//! Checks of readers and tables against the widths of a layout.
ghost use Rattle.std.specs.Prelude.{◌≡◌, ◌⊎◌, All, MatchResult, map};
ghost use Rattle.lookup_indexed.specs.Declaration.{read_of, declared_table};
ghost use Rattle.lookup_indexed.specs.Faults.{AreFaultlessDeclarations, IsFaultlessRead, IsFaultlessTable, IsFirstDeclarationFault, IsFirstReadFault, IsFirstTableFault, IsReadFault, IsTableFault, NamesTable, window_width};

use crate::columns::{check_columns, out_of_range};
use crate::error::IndexedLookupError;
use crate::indexed::{IndexedRead, IndexedTable, TraceWindow};
use air_expressions::AirLayout;
use std::alloc::Global;

/// Checks the readers and tables of an AIR, and refuses the first fault.
///
/// Readers come first, each against the main width of the layout, in this order:
///
/// - `ColumnOutOfRange` if its position is not below the width;
/// - `EmptyPayload`;
/// - `ColumnOutOfRange` or `RepeatedColumn` at the first bad column of the payload; the range is
///   checked first. A payload may name the position's column.
///
/// Then the tables, each against the width of its own window: `EmptyTable`, and then its columns as
/// above. Also fails when out of memory, with `Memory`.
///
/// Takes time and memory linear in the number of columns.
pub fn check_declarations(
    alloc: Global,
    reads: &[IndexedRead],
    tables: &[IndexedTable],
    layout: &AirLayout,
) -> Result<(), IndexedLookupError>
    ensures { MatchResult result
        (λ _. AreFaultlessDeclarations layout.now
        (map read_of reads.now) (map declared_table tables.now))
        (λ e. (e ≡ IndexedLookupError.Memory)
        ⊎ IsFirstDeclarationFault layout.now
        (map read_of reads.now) (map declared_table tables.now) e) }
{
    check_reads(alloc, reads, layout.main_width)?;
    check_tables(alloc, tables, layout)
}

fn check_reads(alloc: Global, reads: &[IndexedRead], width: usize) -> Result<(), IndexedLookupError>
    ensures { MatchResult result
        (λ _. All (IsFaultlessRead width) (map read_of reads.now))
        (λ e. (e ≡ IndexedLookupError.Memory) ⊎ IsFirstReadFault width (map read_of reads.now) e) }
{
    for read in reads {
        check_read(alloc, read, width)?;
    }
    Ok(())
}

fn check_tables(
    alloc: Global,
    tables: &[IndexedTable],
    layout: &AirLayout,
) -> Result<(), IndexedLookupError>
    ensures { MatchResult result
        (λ _. All (IsFaultlessTable layout.now) (map declared_table tables.now))
        (λ e. (e ≡ IndexedLookupError.Memory)
        ⊎ IsFirstTableFault layout.now (map declared_table tables.now) e) }
{
    for table in tables {
        check_table(alloc, table, layout)?;
    }
    Ok(())
}

fn check_read(alloc: Global, read: &IndexedRead, width: usize) -> Result<(), IndexedLookupError>
    ensures { MatchResult result
        (λ _. IsFaultlessRead width (read_of read.now))
        (λ e. (e ≡ IndexedLookupError.Memory) ⊎ IsReadFault width e (read_of read.now)) }
{
    let table = read.table.as_str();
    if read.position >= width {
        return Err(out_of_range(alloc, table, read.position, width));
    }
    if read.payload.is_empty() {
        return Err(empty_payload(alloc, table));
    }
    check_columns(alloc, table, read.payload.as_slice(), width)
}

fn check_table(
    alloc: Global,
    table: &IndexedTable,
    layout: &AirLayout,
) -> Result<(), IndexedLookupError>
    ensures { MatchResult result
        (λ _. IsFaultlessTable layout.now (declared_table table.now))
        (λ e. (e ≡ IndexedLookupError.Memory)
        ⊎ IsTableFault layout.now e (declared_table table.now)) }
{
    let name = table.name.as_str();
    if table.columns.is_empty() {
        return Err(empty_table(alloc, name));
    }
    let width = width_of(layout, table.window);
    check_columns(alloc, name, table.columns.as_slice(), width)
}

/// The width of the trace that a window shows.
fn width_of(layout: &AirLayout, window: TraceWindow) -> usize
    ensures { result ≡ window_width layout.now window }
{
    match window {
        TraceWindow::Main => layout.main_width,
        TraceWindow::Preprocessed => layout.preprocessed_width,
    }
}

/// The refusal of a reader without columns, or out of memory for the table's name.
fn empty_payload(alloc: Global, table: &str) -> IndexedLookupError
    ensures { (result ≡ IndexedLookupError.Memory)
        ⊎ NamesTable table.now IndexedLookupError.EmptyPayload result }
{
    match String::from_str(alloc, table) {
        Ok(table) => IndexedLookupError::EmptyPayload { table },
        Err(_) => IndexedLookupError::Memory,
    }
}

/// The refusal of a table without columns, or out of memory for its name.
fn empty_table(alloc: Global, table: &str) -> IndexedLookupError
    ensures { (result ≡ IndexedLookupError.Memory)
        ⊎ NamesTable table.now IndexedLookupError.EmptyTable result }
{
    match String::from_str(alloc, table) {
        Ok(table) => IndexedLookupError::EmptyTable { table },
        Err(_) => IndexedLookupError::Memory,
    }
}
