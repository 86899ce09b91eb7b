//! How large the traces of AIRs are, where there may be none yet.
ghost use Rattle.std.specs.Prelude.{◌≡◌, [], IfOk, None, map, option_map};
ghost use Rattle.language.specs.Batches.{air_of, section_of};
ghost use Rattle.language.specs.Items.{placed_of};
ghost use Rattle.language.specs.Tables.{table_of};
ghost use Rattle.language_meaning.specs.Scopes.{bytes_in};
ghost use Rattle.language_meaning.specs.Files.{named_of};
ghost use Rattle.language_meaning.specs.Shapes.{air_shape, all_shapes, column_names, columns_in, distinct_names, height_in, main_size, said_size, shape_of, size_in};
ghost use Rattle.language_meaning.specs.Tables.{IsTableResultOrMemory, fixed_table, names_in, one_of};

use crate::files::NamedFile;
use crate::scope::bytes_of;
use crate::table_fault::{TableFault, TableWhy};
use crate::tables::{first, one_preprocessed, one_trace, refused, table_named};
use language::{AirText, BatchText, ItemText, PlacedItem, SectionText, Span, Table};
use std::alloc::{AllocError, Global};

/// How large the traces of an AIR are.
#[derive(Debug, Drop)]
pub struct AirShape {
    /// The names of the columns of the main trace.
    pub columns: Vec<Vec<u8>>,
    /// Those of the preprocessed trace.
    pub preprocessed: Vec<Vec<u8>>,
    /// How many rows there are.
    pub rows: u64,
}

/// The columns and the rows of a main trace.
#[derive(Debug, Drop)]
struct Size {
    columns: Vec<Vec<u8>>,
    rows: u64,
}

/// How large the traces of each AIR of a batch are, by the tables that it names, from these files;
/// or by what it says itself, for an AIR without a trace.
///
/// Refuses the first of these, AIR by AIR: a second trace or preprocessed trace; a trace that
/// cannot be read or has a fault; where no trace is named, a second `columns` or `height`, an AIR
/// without one of them, and a column with the name of one before it; and then a preprocessed trace
/// that cannot be read or has a fault.
pub fn read_shapes(
    alloc: Global,
    text: &[u8],
    batch: &BatchText,
    files: &[NamedFile],
    modulus: u64,
) -> Result<Vec<AirShape>, TableFault>
    ensures { IsTableResultOrMemory (λ v. map shape_of v.items) result (all_shapes text.now
        (map named_of files.now) modulus (map section_of batch.now.sections.items)) }
{
    let mut shapes = Vec::new(alloc);
    for section in &batch.sections {
        if let SectionText::Air(air) = section {
            shapes.push(read_shape(alloc, text, air, files, modulus)?)?;
        }
    }
    Ok(shapes)
}

/// How large the traces of an AIR are.
#[tactic(auto, unfolding(crate::specs::Shapes::air_shape))]
fn read_shape(
    alloc: Global,
    text: &[u8],
    air: &AirText,
    files: &[NamedFile],
    modulus: u64,
) -> Result<AirShape, TableFault>
    ensures { IsTableResultOrMemory shape_of result
        (air_shape text.now (map named_of files.now) modulus (air_of air.now)) }
{
    let trace = one_trace(&air.items)?;
    let fixed = one_preprocessed(&air.items)?;
    let main = match trace {
        Some(file) => size_of(table_named(alloc, text, files, modulus, file)?),
        None => said_size(alloc, text, air)?,
    };
    let preprocessed = match fixed {
        Some(file) => table_named(alloc, text, files, modulus, file)?.names,
        None => Vec::new(alloc),
    };
    Ok(AirShape {
        columns: main.columns,
        preprocessed,
        rows: main.rows,
    })
}

/// The columns and the rows of a table.
fn size_of(table: Table) -> Size
    ensures { size_in result ≡ Rattle.language_meaning.specs.Shapes.size_of_table (table_of table) }
{
    let Table { names, cells } = table;
    let rows = if names.is_empty() {
        0
    } else {
        (cells.len() / names.len()) as u64
    };
    Size {
        columns: names,
        rows,
    }
}

/// The columns and the rows that the items of an AIR say.
#[tactic(auto, unfolding(crate::specs::Shapes::said_size))]
fn said_size(alloc: Global, text: &[u8], air: &AirText) -> Result<Size, TableFault>
    ensures { IsTableResultOrMemory size_in result (said_size text.now (air_of air.now)) }
{
    let columns = one_columns(&air.items)?;
    let height = one_height(&air.items)?;
    let Some(names) = columns else {
        return Err(refused(TableWhy::NoColumns, air.name.start));
    };
    let Some(rows) = height else {
        return Err(refused(TableWhy::NoHeight, air.name.start));
    };
    check_distinct(text, names)?;
    let columns = copies_of(alloc, text, names)?;
    Ok(Size { columns, rows })
}

/// The columns that one item says, if one does.
fn one_columns(items: &[PlacedItem]) -> Result<Option<&[Span]>, TableFault>
    ensures { IsTableResultOrMemory (option_map (λ x. x.now)) result
        (one_of columns_in TableWhy.RepeatedColumns None (map placed_of items.now)) }
{
    let mut found = None;
    for item in items {
        if let ItemText::Columns(names) = &item.item {
            found = Some(first(found, names.as_slice(), TableWhy::RepeatedColumns, item.at)?);
        }
    }
    Ok(found)
}

/// How many rows one item says that there are, if one does.
fn one_height(items: &[PlacedItem]) -> Result<Option<u64>, TableFault>
    ensures { IsTableResultOrMemory (λ x. x) result
        (one_of height_in TableWhy.RepeatedHeight None (map placed_of items.now)) }
{
    let mut found = None;
    for item in items {
        if let ItemText::Height(rows) = &item.item {
            found = Some(first(found, *rows, TableWhy::RepeatedHeight, item.at)?);
        }
    }
    Ok(found)
}

/// Whether no name stands twice.
fn check_distinct(text: &[u8], names: &[Span]) -> Result<(), TableFault>
    ensures { IsTableResultOrMemory (λ x. x) result (distinct_names text.now [] names.now) }
{
    for index in 0..names.len() {
        if stands_in(text, &names[..index], names[index]) {
            return Err(refused(TableWhy::RepeatedColumn, names[index].start));
        }
    }
    Ok(())
}

/// Whether a name stands among these.
fn stands_in(text: &[u8], names: &[Span], name: Span) -> bool
    ensures { result ≡ Rattle.language_meaning.specs.Shapes.stands_in text.now names.now name }
{
    names
        .iter()
        .any(|other| bytes_of(text, *other) == bytes_of(text, name))
}

/// The bytes of names.
fn copies_of(alloc: Global, text: &[u8], names: &[Span]) -> Result<Vec<Vec<u8>>, AllocError>
    ensures { IfOk result (λ v. names_in v.items ≡ map (λ s. bytes_in s text.now) names.now) }
{
    let mut copies = Vec::new(alloc);
    for name in names {
        copies.push(Vec::from_slice(alloc, bytes_of(text, *name))?)?;
    }
    Ok(copies)
}
