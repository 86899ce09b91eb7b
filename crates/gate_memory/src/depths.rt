//! Deep expressions: the calls on an expression of a given form and depth, or on lookups of it.
//!
//! An expression is the constant 3 under layers of one form: a negation, or a sum, difference or product
//! whose other operand, on the left or on the right, is a constant that changes nothing.
use crate::batches::{check_alone, show_mismatch};
use crate::generations::show_generated;
use crate::sets::{pack_lookups, show_degrees};
use crate::texts::written;
use crate::trees;
use air::{Expression, SymbolicExpression, SymbolicExpressionExt};
use field::F7;
use gate_memory_builders::inputs::{BALANCED, alone, trace};
use gate_memory_builders::over::{Call, over_recorder};
use gate_memory_builders::show::{Out, input, show};
use lookup::{Kind, Lookup};
use std::alloc::{AllocError, Global};

/// An expression under one more layer.
fn covered<E: Expression<F7>>(alloc: Global, form: &str, tree: E) -> Result<E, AllocError> {
    let neutral = if form.starts_with("mul") { 1 } else { 0 };
    let beside: E = E::constant(F7::new(neutral));
    match form {
        "neg" => tree.neg(alloc),
        "add-left" => tree.add(alloc, beside),
        "add-right" => beside.add(alloc, tree),
        "sub-left" => tree.sub(alloc, beside),
        "sub-right" => beside.sub(alloc, tree),
        "mul-left" => tree.mul(alloc, beside),
        _ => beside.mul(alloc, tree),
    }
}

/// An expression of so many layers.
fn chain<E: Expression<F7>>(alloc: Global, form: &str, depth: usize) -> Result<E, AllocError> {
    let mut tree: E = E::constant(F7::new(3));
    for _ in 0..depth {
        tree = covered(alloc, form, tree)?;
    }
    Ok(tree)
}

/// A lookup of this expression, once on each row.
fn lookup_of(
    alloc: Global,
    kind: Kind,
    column: usize,
    tree: SymbolicExpression<F7>,
) -> Result<Lookup<F7>, AllocError> {
    let elements = alone(alloc, alone(alloc, tree)?)?;
    let once = SymbolicExpression::constant(F7::new(1));
    Ok(Lookup {
        kind,
        elements,
        multiplicities: alone(alloc, once)?,
        count_weight: 1,
        column,
        flags: None,
    })
}

/// One local lookup of this expression.
fn one_lookup_of(
    alloc: Global,
    tree: SymbolicExpression<F7>,
) -> Result<Vec<Lookup<F7>>, AllocError> {
    alone(alloc, lookup_of(alloc, Kind::Local, 0, tree)?)
}

/// Two lookups on a bus: of this expression, and of 1.
fn two_of(alloc: Global, tree: SymbolicExpression<F7>) -> Result<Vec<Lookup<F7>>, AllocError> {
    let (kind, other) = (bus(alloc)?, bus(alloc)?);
    let mut lookups = alone(alloc, lookup_of(alloc, kind, 0, tree)?)?;
    let one = SymbolicExpression::constant(F7::new(1));
    lookups.push(lookup_of(alloc, other, 1, one)?)?;
    Ok(lookups)
}

fn bus(alloc: Global) -> Result<Kind, AllocError> {
    Ok(Kind::Global(String::from_str(alloc, "keys")?))
}

/// Calls on an expression.
fn on_tree(alloc: Global, out: &mut Out, tree: SymbolicExpression<F7>) {
    show(out, "serialize", written(alloc, &tree));
    trees::on_tree(alloc, out, &tree);
    if let Some(trees) = input(out, alone(alloc, tree)) {
        over_recorder::<F7, F7>(alloc, Call::Resolve, out, trees.as_slice(), &[]);
    }
}

/// Calls on lookups, also over a trace.
fn on_lookups(alloc: Global, out: &mut Out, lookups: &[Lookup<F7>]) {
    for lookup in lookups {
        show_degrees(out, lookup);
    }
    if let Some(main) = trace(alloc, out, &BALANCED, 3) {
        let challenges = [F7::new(5), F7::new(2)];
        show_generated(alloc, out, &main, lookups, challenges.as_slice());
        show_mismatch(alloc, out, lookups, &main);
        check_alone(alloc, out, lookups, &main);
    }
}

/// Calls on an expression over the extension.
fn on_ext_tree(alloc: Global, out: &mut Out, form: &str, depth: usize) {
    let tree: Option<SymbolicExpressionExt<F7, F7>> = input(out, chain(alloc, form, depth));
    if let Some(tree) = tree {
        trees::on_ext_tree::<F7, F7>(alloc, out, &tree);
    }
}

/// Calls on an expression over the field, or on lookups of one.
fn on_base(alloc: Global, out: &mut Out, kind: &str, tree: SymbolicExpression<F7>) {
    match kind {
        "expression" => on_tree(alloc, out, tree),
        "lookup" => {
            if let Some(lookups) = input(out, one_lookup_of(alloc, tree)) {
                on_lookups(alloc, out, lookups.as_slice());
            }
        }
        "two lookups" => {
            if let Some(lookups) = input(out, two_of(alloc, tree)) {
                pack_lookups(alloc, out, lookups);
            }
        }
        _ => out.close(),
    }
}

/// Makes the calls of this kind on an expression of this form and depth.
pub fn deep(alloc: Global, out: &mut Out, kind: &str, form: &str, depth: &str) {
    let Some(depth) = input(out, depth.parse::<usize>()) else {
        return;
    };
    if kind == "expression over the extension" {
        return on_ext_tree(alloc, out, form, depth);
    }
    if let Some(tree) = input(out, chain(alloc, form, depth)) {
        on_base(alloc, out, kind, tree);
    }
}
