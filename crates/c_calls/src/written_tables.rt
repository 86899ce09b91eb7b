//! Tables that calls write.
ghost use Rattle.std.specs.Prelude.{◌≡◌, ◌<◌, ◌≤◌, MatchResult, length};
ghost use Rattle.lookup.specs.Lookups.{lookups_of};
ghost use Rattle.c_tables.specs.Written.{WrittenEncodes};
ghost use Rattle.c_calls.specs.WrittenTables.{HasTableRoom, IsTableRoomRefusal, IsUnwritableRefusal, IsTableWritingRefusal, WritesTables, table_arrays, room_of_arrays, sizes_of_written, written_over};
ghost use Rattle.c_calls.specs.declared.fault.Fault.TheVariants.{Length};

use crate::codes::Part;
use crate::fault::Fault;
use c_tables::{Node, Record, Span, TableFault, Written, write_lookups};
use field_monty::{MontyField31, QuarticParameters};
use lookup::Lookups;
use std::alloc::Global;

/// How many items of each table there are.
#[repr(C)]
#[derive(Clone, Copy, Drop)]
pub struct TableSizes {
    /// The nodes of expressions.
    pub nodes: usize,
    /// The ranges of tuples.
    pub tuples: usize,
    /// The bytes of names.
    pub names: usize,
    /// The lookups.
    pub records: usize,
}

/// The sizes of tables.
fn sizes_of(tables: &Written) -> TableSizes
    ensures { result ≡ sizes_of_written tables.now }
{
    TableSizes {
        nodes: tables.nodes.len(),
        tuples: tables.tuples.len(),
        names: tables.names.len(),
        records: tables.records.len(),
    }
}

/// The lengths of the arrays that a caller has for tables.
pub(crate) fn room_of(
    nodes: &[Node],
    tuples: &[Span],
    names: &[u8],
    records: &[Record],
) -> TableSizes
    ensures { result ≡ room_of_arrays (table_arrays nodes.now tuples.now names.now records.now) }
{
    TableSizes {
        nodes: nodes.len(),
        tuples: tuples.len(),
        names: names.len(),
        records: records.len(),
    }
}

/// Tables of the lookups of a set.
///
/// Refuses the first lookup that no tables encode.
fn tables_of<const P: u32, K: QuarticParameters<P>>(
    alloc: Global,
    set: &Lookups<MontyField31<P, K>>,
) -> Result<Written, Fault>
    ensures { MatchResult result (λ tables. WrittenEncodes tables (lookups_of set.now))
        (IsUnwritableRefusal (lookups_of set.now)) }
{
    match write_lookups(alloc, set.as_slice()) {
        Ok(tables) => Ok(tables),
        Err((_, TableFault::Memory)) => Err(Fault::Memory),
        Err((lookup, fault)) => Err(Fault::Table {
            air: 0,
            lookup,
            fault,
        }),
    }
}

/// Whether an array has room for so many items.
pub(crate) fn check_items(part: Part, expected: usize, actual: usize) -> Result<(), Fault>
    ensures { MatchResult result (λ _. expected ≤ actual)
        (λ fault. (actual < expected) × (fault ≡ Length part expected actual)) }
{
    if actual < expected {
        return Err(Fault::Length {
            part,
            expected,
            actual,
        });
    }
    Ok(())
}

/// Whether arrays of these sizes have room for tables.
///
/// Refuses the first array that is too short: of nodes, tuples, names, and records.
fn check_table_room(tables: &Written, room: TableSizes) -> Result<(), Fault>
    ensures { MatchResult result (λ _. HasTableRoom (sizes_of_written tables.now) room)
        (IsTableRoomRefusal (sizes_of_written tables.now) room) }
{
    let sizes = sizes_of(tables);
    check_items(Part::Nodes, sizes.nodes, room.nodes)?;
    check_items(Part::Tuples, sizes.tuples, room.tuples)?;
    check_items(Part::Names, sizes.names, room.names)?;
    check_items(Part::Records, sizes.records, room.records)
}

/// Tables of the lookups of a set, for which arrays of these sizes have room.
///
/// Refuses the first lookup that no tables encode, and then the first array that is too short.
pub(crate) fn tables_for<const P: u32, K: QuarticParameters<P>>(
    alloc: Global,
    set: &Lookups<MontyField31<P, K>>,
    room: TableSizes,
) -> Result<Written, Fault>
    ensures { MatchResult result
        (λ w. WrittenEncodes w (lookups_of set.now) × HasTableRoom (sizes_of_written w) room)
        (IsTableWritingRefusal (lookups_of set.now) room) }
{
    let made = tables_of(alloc, set)?;
    check_table_room(&made, room)?;
    Ok(made)
}

/// Writes items from the start of an array on.
pub(crate) fn write_items<T: Copy>(array: &mut [T], values: &[T])
    requires { length values.now ≤ length array.old }
    ensures { array.new ≡ written_over values.now array.old }
{
    for index in 0..values.len() {
        array[index] = values[index];
    }
}

/// Writes tables from the start of each array on, and answers their sizes.
pub(crate) fn write_tables(
    tables: &Written,
    nodes: &mut [Node],
    tuples: &mut [Span],
    names: &mut [u8],
    records: &mut [Record],
) -> TableSizes
    requires { HasTableRoom (sizes_of_written tables.now)
        (room_of_arrays (table_arrays nodes.old tuples.old names.old records.old)) }
    ensures { WritesTables tables.now (table_arrays nodes.old tuples.old names.old records.old)
        (table_arrays nodes.new tuples.new names.new records.new) result }
{
    write_items(nodes, &tables.nodes);
    write_items(tuples, &tables.tuples);
    write_items(names, &tables.names);
    write_items(records, &tables.records);
    sizes_of(tables)
}
