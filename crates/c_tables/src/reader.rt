//! The reader of expressions.
ghost use Rattle.std.specs.Prelude.{◌≡◌, ◌⊎◌, ◌++◌, ◌∷◌, [], ℕ, true, false, IfOk, MatchResult, map};
ghost use Rattle.air_expressions.specs.Tree.{tree_of};
ghost use Rattle.c_tables.specs.Nodes.{NodesAreTrees, IsFirstBadNode};
ghost use Rattle.c_tables.specs.declared.nodes.NodeFault.TheVariants.{Memory, Bad};
ghost use Rattle.c_tables.specs.internal.Nodes.{is_negation, is_operation};
ghost use Rattle.c_tables.specs.internal.Stack.{has_one, has_room, has_two, part_depths, nodes_on_stack};

use crate::nodes::{Node, NodeFault, is_leaf, is_negation, is_operation, joined, leaf_of};
use crate::part::Part;
use air_expressions::{Expression, SymbolicExpression};
use field_monty::{MontyField31, MontyParameters};
use std::alloc::Global;

/// The deepest expression that is taken.
pub(crate) const MAX_DEPTH: usize = 1024;

/// Takes one node onto the stack.
fn push_node<const P: u32, K: MontyParameters<P>>(
    alloc: Global,
    stack: &mut Vec<Part<MontyField31<P, K>>>,
    node: &Node,
) -> Result<(), NodeFault>
    ensures { MatchResult result
        (λ _. nodes_on_stack stack.new.items ≡ nodes_on_stack stack.old.items ++ node.now ∷ [])
        (λ e. (e ≡ Memory) ⊎ (has_room P (part_depths stack.old.items) node.now ≡ false)) }
{
    if is_leaf::<P>(node) {
        let expression = SymbolicExpression::Leaf(leaf_of(node));
        stack.push(Part {
            expression,
            depth: 1,
        })?;
        Ok(())
    } else if is_negation(node) {
        push_negation(alloc, stack, node)
    } else if is_operation(node) {
        push_operation(alloc, stack, node)
    } else {
        Err(NodeFault::Bad(0))
    }
}

fn push_negation<const P: u32, K: MontyParameters<P>>(
    alloc: Global,
    stack: &mut Vec<Part<MontyField31<P, K>>>,
    node: &Node,
) -> Result<(), NodeFault>
    requires { is_negation node.now ≡ true }
    ensures { MatchResult result
        (λ _. nodes_on_stack stack.new.items ≡ nodes_on_stack stack.old.items ++ node.now ∷ [])
        (λ e. (e ≡ Memory) ⊎ (has_one (part_depths stack.old.items) ≡ false)) }
{
    match stack.pop() {
        Some(part) => {
            if part.depth >= MAX_DEPTH {
                return Err(NodeFault::Bad(0));
            }
            let Part { expression, depth } = part;
            stack.push(Part {
                expression: expression.neg(alloc)?,
                depth: depth + 1,
            })?;
            Ok(())
        }
        None => Err(NodeFault::Bad(0)),
    }
}

fn push_operation<const P: u32, K: MontyParameters<P>>(
    alloc: Global,
    stack: &mut Vec<Part<MontyField31<P, K>>>,
    node: &Node,
) -> Result<(), NodeFault>
    requires { is_operation node.now ≡ true }
    ensures { MatchResult result
        (λ _. nodes_on_stack stack.new.items ≡ nodes_on_stack stack.old.items ++ node.now ∷ [])
        (λ e. (e ≡ Memory) ⊎ (has_two (part_depths stack.old.items) ≡ false)) }
{
    let Some(right) = stack.pop() else {
        return Err(NodeFault::Bad(0));
    };
    let Some(left) = stack.pop() else {
        return Err(NodeFault::Bad(0));
    };
    if left.depth.max(right.depth) >= MAX_DEPTH {
        return Err(NodeFault::Bad(0));
    }
    let depth = left.depth.max(right.depth) + 1;
    let expression = joined(alloc, node, left.expression, right.expression)?;
    stack.push(Part { expression, depth })?;
    Ok(())
}

/// The expressions whose nodes these are, in order. There is only one such list.
///
/// Refuses the first node that continues no list of expressions: one of an unknown kind or with
/// numbers that its kind does not have, an operation without operands, or one deeper than 1024.
/// Also fails when out of memory.
pub fn read_expressions<const P: u32, K: MontyParameters<P>>(
    alloc: Global,
    nodes: &[Node],
) -> Result<Vec<SymbolicExpression<MontyField31<P, K>>>, NodeFault>
    ensures reads { MatchResult result
        (λ v. NodesAreTrees (map tree_of v.items) nodes.now)
        (λ e. (e ≡ Memory) ⊎ (i : ℕ) × (e ≡ Bad i) × IsFirstBadNode P nodes.now i) }
    ensures only { IfOk result (λ v. (trees : _) → NodesAreTrees trees nodes.now
        → trees ≡ map tree_of v.items) }
{
    let parts = read_parts(alloc, nodes)?;
    let mut expressions = Vec::with_capacity(alloc, parts.len())?;
    for part in parts {
        expressions.push(part.expression)?;
    }
    Ok(expressions)
}

fn read_parts<const P: u32, K: MontyParameters<P>>(
    alloc: Global,
    nodes: &[Node],
) -> Result<Vec<Part<MontyField31<P, K>>>, NodeFault>
    ensures { MatchResult result
        (λ v. nodes_on_stack v.items ≡ nodes.now)
        (λ e. (e ≡ Memory) ⊎ (i : ℕ) × (e ≡ Bad i) × IsFirstBadNode P nodes.now i) }
{
    let mut stack = Vec::new(alloc);
    for (index, node) in nodes.iter().enumerate() {
        match push_node(alloc, &mut stack, node) {
            Ok(()) => {}
            Err(NodeFault::Memory) => return Err(NodeFault::Memory),
            Err(NodeFault::Bad(_)) => return Err(NodeFault::Bad(index)),
        }
    }
    Ok(stack)
}
