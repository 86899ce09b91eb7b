//! Lookups as records that name ranges of tables.
ghost use Rattle.std.specs.Prelude.{◌≡◌, ◌⊎◌, ℕ, MatchResult};
ghost use Rattle.std.specs.Option.{option_map};
ghost use Rattle.lookup_model.specs.Outline.{bus_of};
ghost use Rattle.c_tables.specs.Tables.{AreTableFlags, AreTableLookups, AreTableTuples, IsTableBus, IsTableBusFault, IsFirstBadTableRecord, IsFirstBadTableTuple, IsTableFlagsFault, IsTableLookup, IsTableRecordFault, IsTableSpanFault, AreTableExpressions, IsTableRangeRefusal, NothingInTable, RangeEncodes, TablesEncode};
ghost use Rattle.c_tables.specs.declared.tables.TableFault.TheVariants.{Memory};

use crate::nodes::{Node, NodeFault};
use crate::reader::read_expressions;
use air_expressions::SymbolicExpression;
use field_monty::{MontyField31, MontyParameters};
use lookup_model::{Kind, Lookup};
use std::alloc::{AllocError, AllocFailed, Global};
use thiserror::Error;

/// The most nodes of one list of expressions.
pub(crate) const MAX_NODES: usize = 1_048_576;

/// A range of a table: from `start` up to, but not including, `end`.
#[repr(C)]
#[derive(Clone, Copy)]
pub struct Span {
    pub start: usize,
    pub end: usize,
}

/// One lookup: where its parts stand in the other tables.
///
/// A range of nodes is a whole list of expressions: those of a tuple, all multiplicities, or all flags.
/// Ranges may overlap, or be the same.
#[repr(C)]
#[derive(Clone, Copy)]
pub struct Record {
    /// 0 for a local lookup, 1 for one on a bus.
    pub kind: u32,
    /// 0 without flags, 1 with flags.
    pub exclusive: u32,
    /// The weight of the lookup: the most that the queries of one row add to a count.
    pub weight: u64,
    /// The bus: a range of the names, in UTF-8. Not read for a local lookup.
    pub bus: Span,
    /// The tuples: a range of the tuples' spans.
    pub tuples: Span,
    /// The multiplicities: a range of the nodes.
    pub multiplicities: Span,
    /// The flags: a range of the nodes. Not read without flags.
    pub flags: Span,
}

/// The lookups of one AIR.
#[repr(C)]
#[derive(Drop)]
pub struct Tables<'a> {
    /// Expressions, in postfix order.
    pub nodes: &'a [Node],
    /// For each tuple its range of the nodes.
    pub tuples: &'a [Span],
    /// The names of buses, as bytes.
    pub names: &'a [u8],
    /// The lookups.
    pub records: &'a [Record],
}

/// Why a record is not a lookup, or a lookup cannot be written.
#[derive(Debug, Drop, Error)]
pub enum TableFault {
    /// Out of memory.
    #[error("out of memory")]
    Memory,
    /// No list of expressions begins with the nodes of a range up to the one at this index of the
    /// table.
    #[error("node {0} ends no expression")]
    Node(usize),
    /// A range ends past its table, or before it starts.
    #[error("a range is not within its table")]
    Range,
    /// A list of expressions has more than 1,048,576 nodes.
    #[error("a list of expressions has more than 1048576 nodes")]
    TooManyNodesRead,
    /// The kind of a bus, or whether there are flags, is neither 0 nor 1.
    #[error("a kind is neither 0 nor 1")]
    BadKind,
    /// The name of a bus is not UTF-8.
    #[error("the name of a bus is not UTF-8")]
    NameNotUtf8,
    /// An expression that is written is more than 1024 deep.
    #[error("an expression is more than 1024 deep")]
    TooDeep,
    /// A cell that is written is of a row whose number does not fit 32 bits.
    #[error("the row of a cell does not fit 32 bits")]
    RowTooLarge,
    /// A list of expressions that is written has more than 1,048,576 nodes.
    #[error("a list of expressions would have more than 1048576 nodes")]
    TooManyNodesWritten,
}

impl From<AllocError> for TableFault {
    ghost from_gives = { λ _ e. e ≡ Memory };

    fn from(_error: AllocError) -> TableFault {
        TableFault::Memory
    }
}

impl<T: Drop> From<AllocFailed<T>> for TableFault {
    ghost from_gives = { λ _ e. e ≡ Memory };

    fn from(_error: AllocFailed<T>) -> TableFault {
        TableFault::Memory
    }
}

/// The expressions of a range of nodes.
///
/// Refuses a range that is not within the table, then a long one, then the first bad node.
fn expressions_at<const P: u32, K: MontyParameters<P>>(
    alloc: Global,
    nodes: &[Node],
    span: Span,
) -> Result<Vec<SymbolicExpression<MontyField31<P, K>>>, TableFault>
    ensures { MatchResult result (λ v. AreTableExpressions nodes.now span v.items)
        (λ e. (e ≡ Memory)
        ⊎ (NothingInTable (AreTableExpressions {p = P} nodes.now span)
        × IsTableSpanFault P nodes.now span e)) }
{
    if span.start > span.end || span.end > nodes.len() {
        return Err(TableFault::Range);
    }
    if span.end - span.start > MAX_NODES {
        return Err(TableFault::TooManyNodesRead);
    }
    match read_expressions(alloc, &nodes[span.start..span.end]) {
        Ok(list) => Ok(list),
        Err(NodeFault::Memory) => Err(TableFault::Memory),
        Err(NodeFault::Bad(index)) => Err(TableFault::Node(span.start + index)),
    }
}

/// The tuples of these spans.
///
/// Refuses the first span that no tuple stands in.
fn tuples_at<const P: u32, K: MontyParameters<P>>(
    alloc: Global,
    nodes: &[Node],
    spans: &[Span],
) -> Result<Vec<Vec<SymbolicExpression<MontyField31<P, K>>>>, TableFault>
    ensures { MatchResult result (λ v. AreTableTuples nodes.now spans.now v.items)
        (λ e. (e ≡ Memory)
        ⊎ (NothingInTable (AreTableTuples {p = P} nodes.now spans.now)
        × (i : ℕ) × IsFirstBadTableTuple P nodes.now spans.now i e)) }
{
    let mut tuples = Vec::new(alloc);
    for span in spans {
        tuples.push(expressions_at(alloc, nodes, *span)?)?;
    }
    Ok(tuples)
}

/// The bus of a record.
fn bus_at(alloc: Global, names: &[u8], record: &Record) -> Result<Kind, TableFault>
    ensures { MatchResult result (λ kind. IsTableBus names.now «record».now (bus_of kind))
        (λ e. (e ≡ Memory)
        ⊎ (NothingInTable (λ kind. IsTableBus names.now «record».now (bus_of kind))
        × IsTableBusFault names.now «record».now e)) }
{
    if record.kind == 0 {
        return Ok(Kind::Local);
    }
    let span = record.bus;
    if record.kind != 1 {
        return Err(TableFault::BadKind);
    }
    if span.start > span.end || span.end > names.len() {
        return Err(TableFault::Range);
    }
    match str::from_utf8(&names[span.start..span.end]) {
        Ok(name) => Ok(Kind::Global(String::from_str(alloc, name)?)),
        Err(_) => Err(TableFault::NameNotUtf8),
    }
}

/// The flags of a record.
fn flags_at<const P: u32, K: MontyParameters<P>>(
    alloc: Global,
    nodes: &[Node],
    record: &Record,
) -> Result<Option<Vec<SymbolicExpression<MontyField31<P, K>>>>, TableFault>
    ensures { MatchResult result
        (λ flags. AreTableFlags nodes.now «record».now (option_map (λ v. v.items) flags))
        (λ e. (e ≡ Memory)
        ⊎ (NothingInTable (AreTableFlags {p = P} nodes.now «record».now)
        × IsTableFlagsFault P nodes.now «record».now e)) }
{
    match record.exclusive {
        0 => Ok(None),
        1 => Ok(Some(expressions_at(alloc, nodes, record.flags)?)),
        _ => Err(TableFault::BadKind),
    }
}

/// The lookup of a record, in this column.
///
/// Refuses a record without a bus, then one without tuples, then one without multiplicities, then one
/// without flags.
fn lookup_at<const P: u32, K: MontyParameters<P>>(
    alloc: Global,
    tables: &Tables<'_>,
    record: &Record,
    column: usize,
) -> Result<Lookup<MontyField31<P, K>>, TableFault>
    ensures { MatchResult result
        (λ lookup. IsTableLookup tables.now «record».now lookup × (lookup.column ≡ column))
        (λ e. (e ≡ Memory)
        ⊎ (NothingInTable (IsTableLookup {p = P} tables.now «record».now)
        × IsTableRecordFault P tables.now «record».now e)) }
{
    let kind = bus_at(alloc, tables.names, record)?;
    let spans = record.tuples;
    if spans.start > spans.end || spans.end > tables.tuples.len() {
        return Err(TableFault::Range);
    }
    let elements = tuples_at(alloc, tables.nodes, &tables.tuples[spans.start..spans.end])?;
    let multiplicities = expressions_at(alloc, tables.nodes, record.multiplicities)?;
    let flags = flags_at(alloc, tables.nodes, record)?;
    Ok(Lookup {
        kind,
        elements,
        multiplicities,
        count_weight: record.weight,
        column,
        flags,
    })
}

/// The lookups of all records, each in the column of its record's index.
fn lookups_at<const P: u32, K: MontyParameters<P>>(
    alloc: Global,
    tables: &Tables<'_>,
) -> Result<Vec<Lookup<MontyField31<P, K>>>, (usize, TableFault)>
    ensures { MatchResult result (λ v. AreTableLookups tables.now v.items)
        (λ e. (e.1 ≡ Memory) ⊎ IsFirstBadTableRecord P tables.now e.0 e.1) }
{
    let mut lookups = Vec::new(alloc);
    for (index, record) in tables.records.iter().enumerate() {
        match lookup_at(alloc, tables, record, index) {
            Ok(lookup) => {
                if let Err(_) = lookups.push(lookup) {
                    return Err((index, TableFault::Memory));
                }
            }
            Err(fault) => return Err((index, fault)),
        }
    }
    Ok(lookups)
}

/// The lookups that tables encode. There is only one such list, node by node. Each lookup is in the
/// column of its record's index.
///
/// Refuses the first record that is not a lookup, with its index and the fault of its first bad
/// part: bus, tuples, multiplicities, flags. Also fails when out of memory.
pub fn read_lookups<const P: u32, K: MontyParameters<P>>(
    alloc: Global,
    tables: &Tables<'_>,
) -> Result<Vec<Lookup<MontyField31<P, K>>>, (usize, TableFault)>
    ensures { MatchResult result (λ v. TablesEncode tables.now v.items)
        (λ e. (e.1 ≡ Memory) ⊎ IsFirstBadTableRecord P tables.now e.0 e.1) }
{
    lookups_at(alloc, tables)
}

/// The expressions of a range of nodes. There is only one such list, node by node.
///
/// Refuses a range that is not within the nodes, then one of more than 1,048,576 nodes, and then the first bad
/// node. Also fails when out of memory.
pub fn read_range<const P: u32, K: MontyParameters<P>>(
    alloc: Global,
    nodes: &[Node],
    span: Span,
) -> Result<Vec<SymbolicExpression<MontyField31<P, K>>>, TableFault>
    ensures { MatchResult result (λ v. RangeEncodes nodes.now span v.items)
        (IsTableRangeRefusal P nodes.now span) }
{
    expressions_at(alloc, nodes, span)
}
