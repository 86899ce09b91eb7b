//! Lookups written as tables.
ghost use Rattle.std.specs.Prelude.{◌≡◌, ◌≤◌, ◌<◌, ◌^◌, ◌⊎◌, ◌++◌, ◌∷◌, [], All, IfOk, MatchResult, length, map};
ghost use Rattle.std.specs.List.{range_with_len};
ghost use Rattle.air_expressions.specs.Tree.{tree_of};
ghost use Rattle.lookup_model.specs.Outline.{bus_of};
ghost use Rattle.c_tables.specs.Nodes.{entry_node, leaf_node, node, nodes_of};
ghost use Rattle.c_tables.specs.Tables.{AreTableTuples, IsTableRange, AreTableExpressions, table_items};
ghost use Rattle.c_tables.specs.Written.{AreWritableExpressions, AreWritableFlags, IsWritingTuplesFault, IsWritingListFault, IsWritingLookupFault, IsWritableEntry, IsWritableLeaf, IsWritingFlagsFault, IsWritableLookup, IsWritableWithin, IsWritingTreeFault, IsFirstUnwritable, WrittenEncodes};
ghost use Rattle.c_tables.specs.declared.tables.TableFault.TheVariants.{Memory};
ghost use Rattle.c_tables.specs.internal.Written.{HoldsFrom, IsLonger, EncodesBus, EncodesFlags, EncodesRecord};

use crate::nodes::Node;
use crate::reader::MAX_DEPTH;
use crate::tables::{MAX_NODES, Record, Span, TableFault};
use air_expressions::{BaseEntry, BaseLeaf, SymbolicExpression};
use field_monty::{MontyField31, MontyParameters};
use lookup_model::{Kind, Lookup};
use std::alloc::{AllocError, Global};

/// Tables of the lookups of one AIR.
#[derive(Drop)]
pub struct Written {
    /// Expressions, in postfix order.
    pub nodes: Vec<Node>,
    /// For each tuple its range of the nodes.
    pub tuples: Vec<Span>,
    /// The names of buses, as bytes.
    pub names: Vec<u8>,
    /// The lookups.
    pub records: Vec<Record>,
}

/// A part of a record: 0 if it has none, and 1 with where it stands.
#[derive(Clone, Copy, Drop)]
struct Marked {
    mark: u32,
    span: Span,
}

/// The greatest number of a row that a node says.
const LAST_ROW: usize = 4_294_967_295;

/// A part that a record does not have.
fn unmarked() -> Marked
    ensures { result.mark ≡ 0 }
{
    Marked {
        mark: 0,
        span: Span { start: 0, end: 0 },
    }
}

fn node(kind: u32, number: u32, index: usize) -> Node
    ensures { result ≡ node kind number index }
{
    Node {
        kind,
        number,
        index,
    }
}

/// The node of a variable.
///
/// Refuses one of a row whose number does not fit 32 bits.
fn variable_node(entry: BaseEntry, index: usize) -> Result<Node, TableFault>
    ensures { MatchResult result (λ n. (n ≡ entry_node entry index) × IsWritableEntry entry)
        (λ e. (e ≡ TableFault.RowTooLarge) × (¬ IsWritableEntry entry)) }
{
    match entry {
        BaseEntry::Main { offset } => row_node(0, offset, index),
        BaseEntry::Preprocessed { offset } => row_node(1, offset, index),
        BaseEntry::Public => Ok(node(2, 0, index)),
    }
}

/// The node of a cell of this row.
fn row_node(kind: u32, row: usize, index: usize) -> Result<Node, TableFault>
    ensures { MatchResult result
        (λ n. (n ≡ node kind row index) × (row < 2 ^ 32))
        (λ e. (e ≡ TableFault.RowTooLarge) × (2 ^ 32 ≤ row)) }
{
    if row > LAST_ROW {
        return Err(TableFault::RowTooLarge);
    }
    Ok(node(kind, row as u32, index))
}

/// The node of a leaf.
///
/// Refuses a cell of a row whose number does not fit 32 bits.
fn node_of<const P: u32, K: MontyParameters<P>>(
    leaf: &BaseLeaf<MontyField31<P, K>>,
) -> Result<Node, TableFault>
    ensures { MatchResult result (λ n. (n ≡ leaf_node leaf.now) × IsWritableLeaf leaf.now)
        (λ e. (e ≡ TableFault.RowTooLarge) × (¬ IsWritableLeaf leaf.now)) }
{
    match leaf {
        BaseLeaf::Variable(variable) => variable_node(variable.entry, variable.index),
        BaseLeaf::IsFirstRow => Ok(node(3, 0, 0)),
        BaseLeaf::IsLastRow => Ok(node(4, 0, 0)),
        BaseLeaf::IsTransition => Ok(node(5, 0, 0)),
        BaseLeaf::Constant(c) => Ok(node(6, c.as_canonical_u32(), 0)),
    }
}

/// Appends the node of a leaf. By itself, so that `push_nodes` takes less stack.
#[inline(never)]
fn push_leaf<const P: u32, K: MontyParameters<P>>(
    nodes: &mut Vec<Node>,
    leaf: &BaseLeaf<MontyField31<P, K>>,
) -> Result<(), TableFault>
    ensures { MatchResult result
        (λ _. (nodes.new.items ≡ nodes.old.items ++ leaf_node leaf.now ∷ [])
        × IsWritableLeaf leaf.now)
        (λ e. (e ≡ Memory) ⊎ ((e ≡ TableFault.RowTooLarge) × (¬ IsWritableLeaf leaf.now))) }
{
    nodes.push(node_of(leaf)?)?;
    Ok(())
}

/// Appends the node of an operation, likewise.
#[inline(never)]
fn push_operation(nodes: &mut Vec<Node>, kind: u32) -> Result<(), TableFault>
    ensures { MatchResult result
        (λ _. nodes.new.items ≡ nodes.old.items ++ node kind 0 0 ∷ []) (λ e. e ≡ Memory) }
{
    nodes.push(node(kind, 0, 0))?;
    Ok(())
}

/// Appends the nodes of an expression that is at most so deep.
fn push_nodes<const P: u32, K: MontyParameters<P>>(
    nodes: &mut Vec<Node>,
    expression: &SymbolicExpression<MontyField31<P, K>>,
    depth: usize,
) -> Result<(), TableFault>
    ensures { MatchResult result
        (λ _. (nodes.new.items ≡ nodes.old.items ++ nodes_of (tree_of expression.now))
        × IsWritableWithin depth (tree_of expression.now))
        (λ e. (e ≡ Memory) ⊎ IsWritingTreeFault depth (tree_of expression.now) e) }
{
    if depth == 0 {
        return Err(TableFault::TooDeep);
    }
    match expression {
        SymbolicExpression::Leaf(leaf) => push_leaf(nodes, leaf),
        SymbolicExpression::Add(left, right) => {
            push_nodes(nodes, left, depth - 1)?;
            push_nodes(nodes, right, depth - 1)?;
            push_operation(nodes, 7)
        }
        SymbolicExpression::Sub(left, right) => {
            push_nodes(nodes, left, depth - 1)?;
            push_nodes(nodes, right, depth - 1)?;
            push_operation(nodes, 8)
        }
        SymbolicExpression::Mul(left, right) => {
            push_nodes(nodes, left, depth - 1)?;
            push_nodes(nodes, right, depth - 1)?;
            push_operation(nodes, 9)
        }
        SymbolicExpression::Neg(inner) => {
            push_nodes(nodes, inner, depth - 1)?;
            push_operation(nodes, 10)
        }
    }
}

/// Appends the nodes of a list of expressions, and answers their range.
///
/// Refuses the first expression that no nodes encode, and then a list of too many nodes.
fn write_list<const P: u32, K: MontyParameters<P>>(
    nodes: &mut Vec<Node>,
    expressions: &[SymbolicExpression<MontyField31<P, K>>],
) -> Result<Span, TableFault>
    ensures { MatchResult result
        (λ span. IsLonger nodes.old.items nodes.new.items
        × HoldsFrom nodes.new.items (λ all. AreTableExpressions all span expressions.now)
        × AreWritableExpressions expressions.now)
        (λ e. (e ≡ Memory) ⊎ IsWritingListFault expressions.now e) }
{
    let start = nodes.len();
    for expression in expressions {
        push_nodes(nodes, expression, MAX_DEPTH)?;
    }
    let end = nodes.len();
    if end - start > MAX_NODES {
        return Err(TableFault::TooManyNodesWritten);
    }
    Ok(Span { start, end })
}

/// Appends the nodes of tuples and the range of each, and answers where these stand.
fn write_tuples<const P: u32, K: MontyParameters<P>>(
    nodes: &mut Vec<Node>,
    spans: &mut Vec<Span>,
    tuples: &[Vec<SymbolicExpression<MontyField31<P, K>>>],
) -> Result<Span, TableFault>
    ensures { MatchResult result
        (λ span. IsLonger nodes.old.items nodes.new.items
        × IsLonger spans.old.items spans.new.items
        × HoldsFrom spans.new.items (λ all. IsTableRange all span
        × HoldsFrom nodes.new.items (λ ns. AreTableTuples ns (table_items all span) tuples.now))
        × All (λ tuple. AreWritableExpressions tuple.items) tuples.now)
        (λ e. (e ≡ Memory) ⊎ IsWritingTuplesFault tuples.now e) }
{
    let start = spans.len();
    for tuple in tuples {
        let span = write_list(nodes, tuple)?;
        spans.push(span)?;
    }
    Ok(Span {
        start,
        end: spans.len(),
    })
}

/// Appends a name, and answers where it stands.
fn write_name(names: &mut Vec<u8>, name: &str) -> Result<Span, AllocError>
    ensures { IfOk result (λ span. IsLonger names.old.items names.new.items
        × HoldsFrom names.new.items
        (λ all. IsTableRange all span × (table_items all span ≡ name.now))) }
{
    let start = names.len();
    for byte in name.as_bytes() {
        names.push(*byte)?;
    }
    Ok(Span {
        start,
        end: names.len(),
    })
}

/// Appends the name of a lookup's bus, if it is on one.
fn write_bus(names: &mut Vec<u8>, kind: &Kind) -> Result<Marked, AllocError>
    ensures { IfOk result (λ bus. IsLonger names.old.items names.new.items
        × HoldsFrom names.new.items (λ all. EncodesBus all bus.mark bus.span (bus_of kind.now))) }
{
    match kind {
        Kind::Local => Ok(unmarked()),
        Kind::Global(name) => Ok(Marked {
            mark: 1,
            span: write_name(names, name.as_str())?,
        }),
    }
}

/// Appends the nodes of a lookup's flags, if it has them.
fn write_flags<const P: u32, K: MontyParameters<P>>(
    nodes: &mut Vec<Node>,
    flags: &Option<Vec<SymbolicExpression<MontyField31<P, K>>>>,
) -> Result<Marked, TableFault>
    ensures { MatchResult result
        (λ made. IsLonger nodes.old.items nodes.new.items
        × HoldsFrom nodes.new.items (λ all. EncodesFlags all made.mark made.span flags.now)
        × AreWritableFlags flags.now)
        (λ e. (e ≡ Memory) ⊎ IsWritingFlagsFault flags.now e) }
{
    match flags {
        None => Ok(unmarked()),
        Some(flags) => Ok(Marked {
            mark: 1,
            span: write_list(nodes, flags)?,
        }),
    }
}

/// Appends the parts of a lookup, and answers its record.
fn write_lookup<const P: u32, K: MontyParameters<P>>(
    nodes: &mut Vec<Node>,
    spans: &mut Vec<Span>,
    names: &mut Vec<u8>,
    lookup: &Lookup<MontyField31<P, K>>,
) -> Result<Record, TableFault>
    ensures { MatchResult result
        (λ made. IsLonger nodes.old.items nodes.new.items
        × IsLonger spans.old.items spans.new.items × IsLonger names.old.items names.new.items
        × EncodesRecord nodes.new.items spans.new.items names.new.items made lookup.now
        × IsWritableLookup lookup.now)
        (λ e. (e ≡ Memory) ⊎ IsWritingLookupFault lookup.now e) }
{
    let bus = write_bus(names, &lookup.kind)?;
    let tuples = write_tuples(nodes, spans, &lookup.elements)?;
    let multiplicities = write_list(nodes, &lookup.multiplicities)?;
    let flags = write_flags(nodes, &lookup.flags)?;
    Ok(Record {
        kind: bus.mark,
        exclusive: flags.mark,
        weight: lookup.count_weight,
        bus: bus.span,
        tuples,
        multiplicities,
        flags: flags.span,
    })
}

/// Tables that encode these lookups, whose columns are 0, 1, 2, …: `read_lookups` reads them back.
///
/// Refuses the first lookup that can't be encoded, with its index: one with an expression more than
/// 1024 deep, a cell of a row whose number does not fit 32 bits, or a list of more than 1,048,576
/// nodes. Also fails when out of memory.
pub fn write_lookups<const P: u32, K: MontyParameters<P>>(
    alloc: Global,
    lookups: &[Lookup<MontyField31<P, K>>],
) -> Result<Written, (usize, TableFault)>
    requires { map (λ lookup. lookup.column) lookups.now
        ≡ range_with_len 0 (length lookups.now) }
    ensures { MatchResult result (λ tables. WrittenEncodes tables lookups.now)
        (λ e. (e.1 ≡ Memory) ⊎ IsFirstUnwritable lookups.now e.0 e.1) }
{
    let mut nodes = Vec::new(alloc);
    let mut tuples = Vec::new(alloc);
    let mut names = Vec::new(alloc);
    let mut records = Vec::new(alloc);
    for (index, lookup) in lookups.iter().enumerate() {
        match write_lookup(&mut nodes, &mut tuples, &mut names, lookup) {
            Ok(made) => {
                if let Err(_) = records.push(made) {
                    return Err((index, TableFault::Memory));
                }
            }
            Err(fault) => return Err((index, fault)),
        }
    }
    Ok(Written {
        nodes,
        tuples,
        names,
        records,
    })
}
