//! Nodes of expressions, and what each of them is.
ghost use Rattle.std.specs.Prelude.{◌≡◌, ◌+◌, ◌++◌, ◌∷◌, [], true, IfOk, max};
ghost use Rattle.air_expressions.specs.Depth.{depth_of};
ghost use Rattle.air_expressions.specs.Tree.{tree_of};
ghost use Rattle.c_tables.specs.Nodes.{entry_node, leaf_node, nodes_of};
ghost use Rattle.c_tables.specs.declared.nodes.NodeFault.TheVariants.{Memory};
ghost use Rattle.c_tables.specs.internal.Nodes.{is_leaf, is_negation, is_operation};

use air_expressions::{BaseEntry, BaseLeaf, Expression, SymbolicExpression, SymbolicVariable};
use field_monty::{MontyField31, MontyParameters};
use std::alloc::{AllocError, AllocFailed, Global};

/// A node of an expression: a leaf, or an operation on the one or two expressions before it.
///
/// A field that a kind does not have is 0, so that each list of expressions has one table of nodes.
#[repr(C)]
#[derive(Clone, Copy)]
pub struct Node {
    /// 0 main, 1 preprocessed, 2 public, 3 first row, 4 last row, 5 transition, 6 constant, 7 sum,
    /// 8 difference, 9 product, 10 negation.
    pub kind: u32,
    /// The row of a cell, 0 or 1, or the number that a constant is; otherwise 0.
    pub number: u32,
    /// The column of a cell, or the index of a public value; otherwise 0.
    pub index: usize,
}

/// Why nodes are not a list of expressions.
#[derive(Debug, Drop)]
pub enum NodeFault {
    /// Out of memory.
    Memory,
    /// No list of expressions begins with the nodes up to this one.
    Bad(usize),
}

impl From<AllocError> for NodeFault {
    ghost from_gives = { λ _ e. e ≡ Memory };

    fn from(_error: AllocError) -> NodeFault {
        NodeFault::Memory
    }
}

impl<T: Drop> From<AllocFailed<T>> for NodeFault {
    ghost from_gives = { λ _ e. e ≡ Memory };

    fn from(_error: AllocFailed<T>) -> NodeFault {
        NodeFault::Memory
    }
}

pub(crate) fn is_leaf<const P: u32>(node: &Node) -> bool
    ensures { result ≡ is_leaf P node.now }
{
    node.kind <= 1
        || node.kind == 2 && node.number == 0
        || node.kind <= 5 && node.kind >= 3 && node.number == 0 && node.index == 0
        || node.kind == 6 && node.number < P && node.index == 0
}

pub(crate) fn is_negation(node: &Node) -> bool
    ensures { result ≡ is_negation node.now }
{
    node.kind == 10 && node.number == 0 && node.index == 0
}

pub(crate) fn is_operation(node: &Node) -> bool
    ensures { result ≡ is_operation node.now }
{
    node.kind <= 9 && node.kind >= 7 && node.number == 0 && node.index == 0
}

/// The leaf that a node is.
pub(crate) fn leaf_of<const P: u32, K: MontyParameters<P>>(
    node: &Node,
) -> BaseLeaf<MontyField31<P, K>>
    requires { is_leaf P node.now ≡ true }
    ensures { leaf_node result ≡ node.now }
{
    let offset = node.number as usize;
    if node.kind == 0 {
        variable(BaseEntry::Main { offset }, node.index)
    } else if node.kind == 1 {
        variable(BaseEntry::Preprocessed { offset }, node.index)
    } else if node.kind == 2 {
        variable(BaseEntry::Public, node.index)
    } else if node.kind == 3 {
        BaseLeaf::IsFirstRow
    } else if node.kind == 4 {
        BaseLeaf::IsLastRow
    } else if node.kind == 5 {
        BaseLeaf::IsTransition
    } else {
        BaseLeaf::Constant(MontyField31::new(node.number))
    }
}

fn variable<const P: u32, K: MontyParameters<P>>(
    entry: BaseEntry,
    index: usize,
) -> BaseLeaf<MontyField31<P, K>>
    ensures { leaf_node result ≡ entry_node entry index }
{
    BaseLeaf::Variable(SymbolicVariable::new(entry, index))
}

/// The operation that a node is, on two expressions.
pub(crate) fn joined<const P: u32, K: MontyParameters<P>>(
    alloc: Global,
    node: &Node,
    left: SymbolicExpression<MontyField31<P, K>>,
    right: SymbolicExpression<MontyField31<P, K>>,
) -> Result<SymbolicExpression<MontyField31<P, K>>, AllocError>
    requires { is_operation node.now ≡ true }
    ensures nodes { IfOk result (λ r. nodes_of (tree_of r)
        ≡ nodes_of (tree_of left) ++ (nodes_of (tree_of right) ++ node.now ∷ [])) }
    ensures depth { IfOk result (λ r. depth_of (tree_of r)
        ≡ 1 + max (depth_of (tree_of left)) (depth_of (tree_of right))) }
{
    if node.kind == 7 {
        left.add(alloc, right)
    } else if node.kind == 8 {
        left.sub(alloc, right)
    } else {
        left.mul(alloc, right)
    }
}
