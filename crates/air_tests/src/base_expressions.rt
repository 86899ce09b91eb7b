use crate::cases::holds;
use air_expressions::{
    AirError, BaseEntry, BaseLeaf, Expression, SymbolicExpression, SymbolicVariable,
};
use field::{F7, Field};
use std::alloc::{AllocError, Global};

type Base = SymbolicExpression<F7>;

/// `(a + b) * a`, through the bound.
pub fn product_of<F: Field, E: Expression<F>>(
    alloc: Global,
    a: &E,
    b: &E,
) -> Result<E, AllocError> {
    let sum = a.copy(alloc)?.add(alloc, b.copy(alloc)?)?;
    sum.mul(alloc, a.copy(alloc)?)
}

/// `(a + b) * a - (-b)`, through the bound.
pub fn mixed<F: Field, E: Expression<F>>(alloc: Global, a: &E, b: &E) -> Result<E, AllocError> {
    let product = product_of(alloc, a, b)?;
    let negation = b.copy(alloc)?.neg(alloc)?;
    product.sub(alloc, negation)
}

#[test]
fn elements_are_expressions(rt: HostRuntime) {
    // (3 + 5) * 3 + 5 = 29
    let value = mixed::<F7, F7>(rt.alloc(), &F7::new(3), &F7::new(5));
    let constant = <F7 as Expression<F7>>::constant(F7::new(4));
    holds(&rt, "29", value == Ok(F7::new(1)));
    holds(&rt, "a constant", constant == F7::new(4));
}

fn variable(entry: BaseEntry, index: usize) -> Base {
    SymbolicVariable::new(entry, index).into()
}

fn main_cell(index: usize) -> Base {
    variable(BaseEntry::Main { offset: 0 }, index)
}

fn mixed_tree(alloc: Global) -> Result<Base, AllocError> {
    mixed::<F7, Base>(alloc, &main_cell(0), &main_cell(1))
}

/// Whether this is this cell of the main trace.
fn is_cell(tree: &Base, index: usize) -> bool {
    match tree {
        Base::Leaf(BaseLeaf::Variable(variable)) => {
            variable.entry == BaseEntry::Main { offset: 0 } && variable.index == index
        }
        _ => false,
    }
}

/// Whether this is the sum of cells 0 and 1.
fn is_sum(tree: &Base) -> bool {
    match tree {
        Base::Add(first, second) => is_cell(first, 0) && is_cell(second, 1),
        _ => false,
    }
}

/// Whether this is that sum times cell 0.
fn is_product(tree: &Base) -> bool {
    match tree {
        Base::Mul(sum, cell) => is_sum(sum) && is_cell(cell, 0),
        _ => false,
    }
}

/// Whether this is cell 1 negated.
fn is_negation(tree: &Base) -> bool {
    match tree {
        Base::Neg(cell) => is_cell(cell, 1),
        _ => false,
    }
}

/// Whether this is the difference of that product and that negation.
fn is_mixed(tree: &Base) -> bool {
    match tree {
        Base::Sub(product, negation) => is_product(product) && is_negation(negation),
        _ => false,
    }
}

#[test]
fn building_calls_make_their_nodes(rt: HostRuntime) {
    match mixed_tree(rt.alloc()) {
        Ok(tree) => holds(&rt, "nodes", is_mixed(&tree)),
        Err(_) => holds(&rt, "there is a tree", false),
    }
}

#[test]
fn constants_are_leaves(rt: HostRuntime) {
    let constant = Base::constant(F7::new(2));
    let is_two = match constant {
        Base::Leaf(BaseLeaf::Constant(value)) => value == F7::new(2),
        _ => false,
    };
    holds(&rt, "2", is_two);
}

/// The degree of a leaf, where the transition selector has this degree.
fn leaf_has_degree(leaf: BaseLeaf<F7>, transition: usize, degree: usize) -> bool {
    Base::Leaf(leaf).degree_multiple_with_transition(transition) == Ok(degree)
}

#[test]
fn leaves_have_their_degrees(rt: HostRuntime) {
    let three = BaseLeaf::Constant(F7::new(3));
    holds(
        &rt,
        "no degree",
        leaf_has_degree(BaseLeaf::IsTransition, 0, 0),
    );
    holds(
        &rt,
        "transition",
        leaf_has_degree(BaseLeaf::IsTransition, 5, 5),
    );
    holds(
        &rt,
        "first row",
        leaf_has_degree(BaseLeaf::IsFirstRow, 5, 1),
    );
    holds(&rt, "last row", leaf_has_degree(BaseLeaf::IsLastRow, 5, 1));
    holds(&rt, "constant", leaf_has_degree(three, 5, 0));
}

fn mixed_degree(alloc: Global) -> Result<usize, AirError> {
    mixed_tree(alloc)?.degree_multiple()
}

#[test]
fn degrees_follow_the_nodes(rt: HostRuntime) {
    let public_value = variable(BaseEntry::Public, 0).degree_multiple();
    holds(&rt, "a product", mixed_degree(rt.alloc()) == Ok(2));
    holds(&rt, "a public value", public_value == Ok(0));
}

/// The degree of the transition selector times a cell.
fn degree_of_a_step(alloc: Global, transition: usize) -> Result<usize, AirError> {
    let tree = Base::Leaf(BaseLeaf::IsTransition).mul(alloc, main_cell(0))?;
    tree.degree_multiple_with_transition(transition)
}

#[test]
fn degrees_stop_at_the_greatest_number(rt: HostRuntime) {
    let above = degree_of_a_step(rt.alloc(), usize::MAX);
    let greatest = degree_of_a_step(rt.alloc(), usize::MAX - 1);
    holds(&rt, "above", above == Err(AirError::DegreeOverflow));
    holds(&rt, "greatest", greatest == Ok(usize::MAX));
}
