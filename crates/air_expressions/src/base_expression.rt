//! Base expressions.
ghost use Rattle.std.specs.Prelude.{◌≡◌, IfOk, map};
ghost use Rattle.air_expressions.specs.Tree.{tree_of};

use crate::expression::{Expression, WholeNumbers, both, boxed_pair};
use crate::variable::{SymbolicVariable, write_variant};
use field::Field;
use serde::{Case, Described, Serialize, Serializer};
use std::alloc::{AllocError, Global};
use std::marker::{Model, PhantomData};

/// A base expression without operations.
#[derive(Clone, Copy, Debug)]
pub enum BaseLeaf<F> {
    /// A cell of the window or a public value.
    Variable(SymbolicVariable<F>),
    /// One on the first row, zero elsewhere.
    IsFirstRow,
    /// One on the last row, zero elsewhere.
    IsLastRow,
    /// One on every row but the last, zero there.
    IsTransition,
    /// An element.
    Constant(F),
}

/// A base expression: a tree of sums, differences, products and negations over leaves.
#[derive(Debug, Drop)]
pub enum SymbolicExpression<F> {
    /// A leaf.
    Leaf(BaseLeaf<F>),
    /// A sum.
    Add(Box<SymbolicExpression<F>>, Box<SymbolicExpression<F>>),
    /// A difference.
    Sub(Box<SymbolicExpression<F>>, Box<SymbolicExpression<F>>),
    /// A product.
    Mul(Box<SymbolicExpression<F>>, Box<SymbolicExpression<F>>),
    /// A negation.
    Neg(Box<SymbolicExpression<F>>),
}

/// What a base expression is evaluated at; contracts see a window. Never constructed.
pub struct SeenWindow<F>(PhantomData<F>);

impl<F> Model for SeenWindow<F> {
    ghost use Rattle.air_expressions.specs.Window.{Window, empty_window};

    ghost Value = { Window F };

    ghost view = { λ _. empty_window };
}

/// A variable is the leaf that holds it.
impl<F> From<SymbolicVariable<F>> for SymbolicExpression<F> {
    ghost use Rattle.std.specs.Prelude.{◌≡◌};
    ghost use Rattle.air_expressions.specs.Tree.{tree_of, leaf};
    ghost use Rattle.air_expressions.specs.declared.base_expression.BaseLeaf.TheVariants.{Variable};

    ghost from_gives = { λ v e. tree_of e ≡ leaf (Variable v) };

    fn from(variable: SymbolicVariable<F>) -> Self {
        SymbolicExpression::Leaf(BaseLeaf::Variable(variable))
    }
}

/// A whole number is the constant that many times one.
impl<F: Field> WholeNumbers for SymbolicExpression<F> {
    ghost use Rattle.std.specs.Prelude.{◌≡◌};
    ghost use Rattle.field.specs.Ring.{of_int};
    ghost use Rattle.air_expressions.specs.Tree.{tree_of, leaf};
    ghost use Rattle.air_expressions.specs.declared.base_expression.BaseLeaf.TheVariants.{Constant};

    ghost is_whole = { λ n e. tree_of e ≡ leaf (Constant (of_int F.ring n)) };

    fn whole(n: i32) -> Self {
        Self::constant(F::from_i32(n))
    }
}

impl<F: Field> Expression<F> for SymbolicExpression<F> {
    ghost use Rattle.std.proofs.Common.{ap, subst, sym};
    ghost use Rattle.air_expressions.specs.Degree.{degree_of};
    ghost use Rattle.air_expressions.specs.Layout.{Fits};
    ghost use Rattle.air_expressions.specs.Meaning.{value_of};
    ghost use Rattle.air_expressions.specs.Tree.{tree_of, leaf, add, sub, mul, neg};
    ghost use Rattle.air_expressions.specs.Window.{Window};

    type Seen = SeenWindow<F>;

    ghost value = { λ e w. value_of F.ring w (tree_of e) };

    ghost degree = { λ e t. degree_of t (tree_of e) };

    ghost same = { λ a b. tree_of b ≡ tree_of a };

    ghost is_product = { λ a b r. tree_of r ≡ mul (tree_of a) (tree_of b) };

    ghost within = { λ l e. Fits l (tree_of e) };

    fn constant(x: F) -> Self
        ensures { tree_of result ≡ leaf (BaseLeaf.Constant x) }
    {
        SymbolicExpression::Leaf(BaseLeaf::Constant(x))
    }

    fn add(self, alloc: Global, other: Self) -> Result<Self, AllocError>
        ensures { IfOk result (λ r. tree_of r ≡ add (tree_of self) (tree_of other)) }
    {
        let (left, right) = boxed_pair(alloc, self, other)?;
        Ok(SymbolicExpression::Add(left, right))
    }

    fn sub(self, alloc: Global, other: Self) -> Result<Self, AllocError>
        ensures { IfOk result (λ r. tree_of r ≡ sub (tree_of self) (tree_of other)) }
    {
        let (left, right) = boxed_pair(alloc, self, other)?;
        Ok(SymbolicExpression::Sub(left, right))
    }

    fn mul(self, alloc: Global, other: Self) -> Result<Self, AllocError>
        ensures { IfOk result (λ r. tree_of r ≡ mul (tree_of self) (tree_of other)) }
    {
        let (left, right) = boxed_pair(alloc, self, other)?;
        Ok(SymbolicExpression::Mul(left, right))
    }

    fn neg(self, alloc: Global) -> Result<Self, AllocError>
        ensures { IfOk result (λ r. tree_of r ≡ neg (tree_of self)) }
    {
        let inner = Box::new(alloc, self)?;
        Ok(SymbolicExpression::Neg(inner))
    }

    fn copy(&self, alloc: Global) -> Result<Self, AllocError>
        ensures { IfOk result (λ r. tree_of r ≡ tree_of self.now) }
    {
        match self {
            SymbolicExpression::Leaf(leaf) => Ok(SymbolicExpression::Leaf(*leaf)),
            SymbolicExpression::Add(a, b) => {
                let (a, b) = both(a.copy(alloc)?, b.copy(alloc))?;
                a.add(alloc, b)
            }
            SymbolicExpression::Sub(a, b) => {
                let (a, b) = both(a.copy(alloc)?, b.copy(alloc))?;
                a.sub(alloc, b)
            }
            SymbolicExpression::Mul(a, b) => {
                let (a, b) = both(a.copy(alloc)?, b.copy(alloc))?;
                a.mul(alloc, b)
            }
            SymbolicExpression::Neg(a) => a.copy(alloc)?.neg(alloc),
        }
    }

    ghost whole_value = { λ n x w h. ap (value_of F.ring w) h };

    ghost whole_degree = { λ n x t h. ap (degree_of t) h };

    ghost whole_within = { λ n x l h. subst (Fits l) (sym h) tt };
}

/// Deep copies of expressions, in order.
///
/// Fails only when out of memory.
pub fn copy_expressions<F: Field>(
    alloc: Global,
    expressions: &[SymbolicExpression<F>],
) -> Result<Vec<SymbolicExpression<F>>, AllocError>
    ensures { IfOk result (λ v. map tree_of v.items ≡ map tree_of expressions.now) }
{
    let mut copies = Vec::with_capacity(alloc, expressions.len())?;
    for expression in expressions {
        copies.push(expression.copy(alloc)?)?;
    }
    Ok(copies)
}

impl<F> Described for BaseLeaf<F> {}

/// A leaf with data is written as a map with one member, named for it. A selector is its name.
impl<F: Serialize> Serialize for BaseLeaf<F> {
    fn serialize<S: Serializer>(&self, out: &mut S) -> Result<(), S::Error> {
        match self {
            BaseLeaf::Variable(variable) => write_variant("Variable", variable, out),
            BaseLeaf::IsFirstRow => out.str_cased("IsFirstRow", Case::AsIs),
            BaseLeaf::IsLastRow => out.str_cased("IsLastRow", Case::AsIs),
            BaseLeaf::IsTransition => out.str_cased("IsTransition", Case::AsIs),
            BaseLeaf::Constant(x) => write_variant("Constant", x, out),
        }
    }
}

impl<F> Described for SymbolicExpression<F> {}

impl<F> SymbolicExpression<F> {
    /// The name of the node.
    fn name(&self) -> &'static str {
        match self {
            SymbolicExpression::Leaf(_) => "Leaf",
            SymbolicExpression::Add(..) => "Add",
            SymbolicExpression::Sub(..) => "Sub",
            SymbolicExpression::Mul(..) => "Mul",
            SymbolicExpression::Neg(_) => "Neg",
        }
    }
}

/// A node is written as a map with one member, named for the node. It holds the leaf, the operand,
/// or the list of both operands.
impl<F: Serialize> Serialize for SymbolicExpression<F> {
    fn serialize<S: Serializer>(&self, out: &mut S) -> Result<(), S::Error> {
        out.begin_map(Some(1))?;
        out.variant_key(self.name(), Case::AsIs)?;
        match self {
            SymbolicExpression::Leaf(leaf) => leaf.serialize(out)?,
            SymbolicExpression::Add(left, right)
            | SymbolicExpression::Sub(left, right)
            | SymbolicExpression::Mul(left, right) => {
                out.begin_seq(Some(2))?;
                (**left).serialize(out)?;
                (**right).serialize(out)?;
                out.end_seq()?;
            }
            SymbolicExpression::Neg(inner) => (**inner).serialize(out)?,
        }
        out.end_map()
    }
}
