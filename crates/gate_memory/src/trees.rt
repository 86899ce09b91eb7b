//! Calls of expressions.
use air::{Expression, ExtLeaf, SymbolicExpression, SymbolicExpressionExt, copy_expressions};
use field::{ExtensionField, F7, Field};
use gate_memory_builders::inputs::{TREES, layout, read};
use gate_memory_builders::over::{Call, over_recorder};
use gate_memory_builders::show::{Out, input, show};
use std::alloc::{AllocError, Global};
use std::fmt::Debug;

/// Makes the building call of this number, or a copy.
fn node<F: Field, E: Expression<F>>(alloc: Global, tree: &E, call: usize) -> Result<E, AllocError> {
    let (one, other): (E, E) = (E::constant(F::ONE), E::constant(F::ONE));
    match call {
        0 => one.add(alloc, other),
        1 => one.sub(alloc, other),
        2 => one.mul(alloc, other),
        3 => one.neg(alloc),
        _ => tree.copy(alloc),
    }
}

/// The building calls of a kind of expressions, by these names, and a copy of one.
pub fn nodes<F: Field, E: Expression<F> + Debug>(
    alloc: Global,
    out: &mut Out,
    names: &[&str; 5],
    tree: &E,
) {
    for call in 0..5usize {
        show(out, names[call], node::<F, E>(alloc, tree, call));
    }
}

const OF_TREES: [&str; 5] = ["add", "sub", "mul", "neg", "copy"];

const OF_EXT_TREES: [&str; 5] = ["add, ext", "sub, ext", "mul, ext", "neg, ext", "copy, ext"];

/// Calls on one expression.
pub fn on_tree(alloc: Global, out: &mut Out, tree: &SymbolicExpression<F7>) {
    show(out, "fmt", tree);
    nodes::<F7, SymbolicExpression<F7>>(alloc, out, &OF_TREES, tree);
    show(out, "degree_multiple", tree.degree_multiple());
    let degree = tree.degree_multiple_with_transition(2);
    show(out, "degree_multiple_with_transition", degree);
    show(out, "fits", tree.fits(&layout()));
}

/// Calls on an expression over the extension.
pub fn on_ext_tree<F: Field + Debug, EF: ExtensionField<F> + Debug>(
    alloc: Global,
    out: &mut Out,
    tree: &SymbolicExpressionExt<F, EF>,
) {
    show(out, "fmt, ext", tree);
    nodes::<EF, SymbolicExpressionExt<F, EF>>(alloc, out, &OF_EXT_TREES, tree);
    show(out, "degree_multiple, ext", tree.degree_multiple());
    let degree = tree.degree_multiple_with_transition(2);
    show(out, "degree_multiple_with_transition, ext", degree);
    if let SymbolicExpressionExt::Leaf(leaf) = tree {
        show(out, "copy of a leaf", leaf.copy(alloc));
    }
}

/// Calls on the negative of 1 as an expression over the extension.
fn on_lifted(alloc: Global, out: &mut Out) {
    let one: SymbolicExpression<F7> = SymbolicExpression::constant(F7::new(1));
    if let Some(negative) = input(out, one.neg(alloc)) {
        let tree = SymbolicExpressionExt::Leaf(ExtLeaf::Base(negative));
        on_ext_tree::<F7, F7>(alloc, out, &tree);
    }
}

/// Calls on expressions.
fn on_trees(alloc: Global, out: &mut Out, trees: &[SymbolicExpression<F7>]) {
    for tree in trees {
        on_tree(alloc, out, tree);
    }
    show(out, "copy_expressions", copy_expressions(alloc, trees));
    on_lifted(alloc, out);
    over_recorder::<F7, F7>(alloc, Call::Resolve, out, trees, &[]);
    show(out, "input", &trees);
}

/// The calls of expressions, over the same ones twice.
pub fn expressions(alloc: Global, out: &mut Out) {
    let trees: Option<Vec<SymbolicExpression<F7>>> = read(alloc, out, TREES);
    if let Some(trees) = trees {
        on_trees(alloc, out, trees.as_slice());
        on_trees(alloc, out, trees.as_slice());
    }
}
