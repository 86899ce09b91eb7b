//! The tables of the AIRs of a batch, from the bytes of their files.
ghost use Rattle.std.specs.Prelude.{◌≡◌, None, Some, map};
ghost use Rattle.language.specs.Batches.{air_of, section_of};
ghost use Rattle.language.specs.Items.{item_of, placed_of};
ghost use Rattle.language.specs.Tables.{table_of};
ghost use Rattle.language_meaning.specs.Files.{named_of};
ghost use Rattle.language_meaning.specs.Tables.{IsTableResultOrMemory, air_tables, all_tables, fixed_in, one_more, one_of, table_named, tables_of, trace_in};

use crate::files::{NamedFile, content_of};
use crate::scope::bytes_of;
use crate::table_fault::{TableFault, TableRefusal, TableWhy};
use language::{
    AirText, BatchText, ItemText, PlacedItem, SectionText, Span, Table, TextFault, read_table,
};
use std::alloc::Global;

/// The tables of an AIR.
#[derive(Debug, Drop)]
pub struct AirTables {
    pub main: Table,
    pub preprocessed: Option<Table>,
}

/// The tables of each AIR of a batch, from the files that it names. Their numbers are below the
/// modulus; see `read_table`.
///
/// Refuses the first of these, AIR by AIR: a second trace, no trace, a second preprocessed trace; a
/// trace that cannot be read or has a fault, and then such a preprocessed trace.
pub fn read_tables(
    alloc: Global,
    text: &[u8],
    batch: &BatchText,
    files: &[NamedFile],
    modulus: u64,
) -> Result<Vec<AirTables>, TableFault>
    ensures { IsTableResultOrMemory (λ v. map tables_of v.items) result (all_tables text.now
        (map named_of files.now) modulus (map section_of batch.now.sections.items)) }
{
    let mut tables = Vec::new(alloc);
    for section in &batch.sections {
        if let SectionText::Air(air) = section {
            tables.push(read_air(alloc, text, air, files, modulus)?)?;
        }
    }
    Ok(tables)
}

/// The tables of an AIR.
#[tactic(auto, unfolding(crate::specs::Tables::air_tables))]
fn read_air(
    alloc: Global,
    text: &[u8],
    air: &AirText,
    files: &[NamedFile],
    modulus: u64,
) -> Result<AirTables, TableFault>
    ensures { IsTableResultOrMemory tables_of result
        (air_tables text.now (map named_of files.now) modulus (air_of air.now)) }
{
    let Some(trace) = one_trace(&air.items)? else {
        return Err(refused(TableWhy::NoTrace, air.name.start));
    };
    let fixed = one_preprocessed(&air.items)?;
    let main = table_named(alloc, text, files, modulus, trace)?;
    let preprocessed = match fixed {
        Some(file) => Some(table_named(alloc, text, files, modulus, file)?),
        None => None,
    };
    Ok(AirTables { main, preprocessed })
}

/// The file of the one trace that items name, if they name one.
pub(crate) fn one_trace(items: &[PlacedItem]) -> Result<Option<Span>, TableFault>
    ensures { IsTableResultOrMemory (λ f. f) result
        (one_of trace_in TableWhy.RepeatedTrace None (map placed_of items.now)) }
{
    let mut found = None;
    for item in items {
        if let ItemText::Trace(file) = &item.item {
            found = Some(first(found, *file, TableWhy::RepeatedTrace, item.at)?);
        }
    }
    Ok(found)
}

/// The file of the one preprocessed trace that items name, if they name one.
pub(crate) fn one_preprocessed(items: &[PlacedItem]) -> Result<Option<Span>, TableFault>
    ensures { IsTableResultOrMemory (λ f. f) result
        (one_of fixed_in TableWhy.RepeatedPreprocessed None (map placed_of items.now)) }
{
    let mut found = None;
    for item in items {
        if let ItemText::Preprocessed(file) = &item.item {
            found = Some(first(found, *file, TableWhy::RepeatedPreprocessed, item.at)?);
        }
    }
    Ok(found)
}

/// What an item has, unless something was found before it.
pub(crate) fn first<T: Drop>(
    found: Option<T>,
    item: T,
    why: TableWhy,
    at: usize,
) -> Result<T, TableFault>
    ensures { IsTableResultOrMemory Some result (one_more why at found (Some item)) }
{
    match found {
        None => Ok(item),
        Some(_) => Err(refused(why, at)),
    }
}

pub(crate) fn refused(why: TableWhy, at: usize) -> TableFault
    ensures { result ≡ TableFault.Refused (record { file = None; at = at; why = why }) }
{
    TableFault::Refused(TableRefusal {
        file: None,
        at,
        why,
    })
}

/// The table in the file that is named here.
#[tactic(auto, unfolding(crate::specs::Tables::table_named))]
pub(crate) fn table_named(
    alloc: Global,
    text: &[u8],
    files: &[NamedFile],
    modulus: u64,
    file: Span,
) -> Result<Table, TableFault>
    ensures { IsTableResultOrMemory table_of result (table_named text.now (map named_of files.now) modulus file) }
{
    let Some(content) = content_of(files, bytes_of(text, file)) else {
        return Err(refused(TableWhy::Unreadable, file.start));
    };
    match read_table(alloc, content, modulus) {
        Ok(table) => Ok(table),
        Err(TextFault::Memory) => Err(TableFault::Memory),
        Err(TextFault::Fault(fault)) => Err(TableFault::Refused(TableRefusal {
            file: Some(file),
            at: fault.at,
            why: TableWhy::Text(fault.why),
        })),
    }
}
