use crate::base_expressions::mixed;
use crate::cases::holds;
use air_expressions::{
    AirError, BaseLeaf, Expression, ExtEntry, ExtLeaf, SymbolicExpression, SymbolicExpressionExt,
    SymbolicVariableExt,
};
use field::F7;
use std::alloc::{AllocError, Global};

type Base = SymbolicExpression<F7>;

type Extension = SymbolicExpressionExt<F7, F7>;

fn variable(entry: ExtEntry) -> Extension {
    SymbolicVariableExt::new(entry, 0).into()
}

fn has_degree(tree: Extension, degree: usize) -> bool {
    tree.degree_multiple() == Ok(degree)
}

#[test]
fn leaves_have_their_degrees(rt: HostRuntime) {
    let cell = ExtEntry::Permutation { offset: 1 };
    holds(&rt, "a cell", has_degree(variable(cell), 1));
    holds(
        &rt,
        "a challenge",
        has_degree(variable(ExtEntry::Challenge), 0),
    );
    holds(
        &rt,
        "a value",
        has_degree(variable(ExtEntry::PermutationValue), 0),
    );
    holds(
        &rt,
        "a constant",
        has_degree(Extension::constant(F7::new(1)), 0),
    );
}

fn mixed_tree(alloc: Global) -> Result<Extension, AllocError> {
    let cell = variable(ExtEntry::Permutation { offset: 1 });
    mixed::<F7, Extension>(alloc, &cell, &variable(ExtEntry::Challenge))
}

/// Whether this is the variable of an entry at index 0.
fn is_variable(tree: &Extension, entry: ExtEntry) -> bool {
    match tree {
        Extension::Leaf(ExtLeaf::Variable(variable)) => {
            variable.entry == entry && variable.index == 0
        }
        _ => false,
    }
}

/// Whether this is that cell of the next row.
fn is_cell(tree: &Extension) -> bool {
    is_variable(tree, ExtEntry::Permutation { offset: 1 })
}

/// Whether this is the sum of that cell and the challenge.
fn is_sum(tree: &Extension) -> bool {
    match tree {
        Extension::Add(cell, challenge) => {
            is_cell(cell) && is_variable(challenge, ExtEntry::Challenge)
        }
        _ => false,
    }
}

/// Whether this is that sum times the cell.
fn is_product(tree: &Extension) -> bool {
    match tree {
        Extension::Mul(sum, cell) => is_sum(sum) && is_cell(cell),
        _ => false,
    }
}

/// Whether this is the challenge negated.
fn is_negation(tree: &Extension) -> bool {
    match tree {
        Extension::Neg(challenge) => is_variable(challenge, ExtEntry::Challenge),
        _ => false,
    }
}

/// Whether this is the difference of that product and that negation, of degree 2.
fn is_mixed(tree: &Extension) -> bool {
    let is_right = match tree {
        Extension::Sub(product, negation) => is_product(product) && is_negation(negation),
        _ => false,
    };
    is_right && tree.degree_multiple() == Ok(2)
}

#[test]
fn building_calls_make_their_nodes(rt: HostRuntime) {
    match mixed_tree(rt.alloc()) {
        Ok(tree) => holds(&rt, "a difference of degree 2", is_mixed(&tree)),
        Err(_) => holds(&rt, "there is a tree", false),
    }
}

/// The transition selector, embedded.
fn step() -> Extension {
    let selector: Base = SymbolicExpression::Leaf(BaseLeaf::IsTransition);
    SymbolicExpressionExt::Leaf(ExtLeaf::Base(selector))
}

/// The degree of the transition selector, embedded, times a cell.
fn degree_of_a_step(alloc: Global, transition: usize) -> Result<usize, AirError> {
    let tree = step().mul(alloc, variable(ExtEntry::Permutation { offset: 0 }))?;
    tree.degree_multiple_with_transition(transition)
}

#[test]
fn degrees_stop_at_the_greatest_number(rt: HostRuntime) {
    let above = degree_of_a_step(rt.alloc(), usize::MAX);
    let greatest = degree_of_a_step(rt.alloc(), usize::MAX - 1);
    holds(&rt, "above", above == Err(AirError::DegreeOverflow));
    holds(&rt, "greatest", greatest == Ok(usize::MAX));
}
