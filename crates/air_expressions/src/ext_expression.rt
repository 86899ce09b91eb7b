//! Expressions over an extension.
ghost use Rattle.std.specs.Prelude.{◌≡◌, IfOk};

use crate::base_expression::SymbolicExpression;
use crate::expression::{Expression, WholeNumbers, both, boxed_pair};
use crate::variable::SymbolicVariableExt;
use field::{ExtensionField, Field};
use std::alloc::{AllocError, Global};
use std::marker::{Model, PhantomData};

/// An extension expression without operations.
#[derive(Debug, Drop)]
pub enum ExtLeaf<F, EF> {
    /// A base expression, embedded.
    Base(SymbolicExpression<F>),
    /// A cell of the permutation trace, a challenge or a value of the permutation argument.
    Variable(SymbolicVariableExt<F, EF>),
    /// An element of the extension.
    Constant(EF),
}

impl<F: Field, EF: ExtensionField<F>> ExtLeaf<F, EF> {
    ghost use Rattle.air_expressions.specs.ExtTree.{ext_leaf_tree};

    /// A deep copy. Fails only when out of memory.
    pub fn copy(&self, alloc: Global) -> Result<Self, AllocError>
        ensures { IfOk result (λ r. ext_leaf_tree r ≡ ext_leaf_tree self.now) }
    {
        match self {
            ExtLeaf::Base(expression) => Ok(ExtLeaf::Base(expression.copy(alloc)?)),
            ExtLeaf::Variable(variable) => Ok(ExtLeaf::Variable(*variable)),
            ExtLeaf::Constant(x) => Ok(ExtLeaf::Constant(*x)),
        }
    }
}

/// An extension expression: a tree of sums, differences, products and negations over leaves.
#[derive(Debug, Drop)]
pub enum SymbolicExpressionExt<F, EF> {
    /// A leaf.
    Leaf(ExtLeaf<F, EF>),
    /// A sum.
    Add(Box<SymbolicExpressionExt<F, EF>>, Box<SymbolicExpressionExt<F, EF>>),
    /// A difference.
    Sub(Box<SymbolicExpressionExt<F, EF>>, Box<SymbolicExpressionExt<F, EF>>),
    /// A product.
    Mul(Box<SymbolicExpressionExt<F, EF>>, Box<SymbolicExpressionExt<F, EF>>),
    /// A negation.
    Neg(Box<SymbolicExpressionExt<F, EF>>),
}

/// What an extension expression is evaluated at; contracts see a window of a permutation argument.
/// Never constructed.
pub struct SeenExtWindow<F, EF>(PhantomData<(F, EF)>);

impl<F, EF> Model for SeenExtWindow<F, EF> {
    ghost use Rattle.air_expressions.specs.Window.{ExtWindow, empty_ext_window};

    ghost Value = { ExtWindow F EF };

    ghost view = { λ _. empty_ext_window };
}

/// A variable is the leaf that holds it.
impl<F, EF> From<SymbolicVariableExt<F, EF>> for SymbolicExpressionExt<F, EF> {
    ghost use Rattle.std.specs.Prelude.{◌≡◌};
    ghost use Rattle.air_expressions.specs.ExtTree.{ext_tree_of, variable};

    ghost from_gives = { λ v e. ext_tree_of e ≡ variable v };

    fn from(variable: SymbolicVariableExt<F, EF>) -> Self {
        SymbolicExpressionExt::Leaf(ExtLeaf::Variable(variable))
    }
}

/// A whole number is the constant that many times one.
impl<F: Field, EF: ExtensionField<F>> WholeNumbers for SymbolicExpressionExt<F, EF> {
    ghost use Rattle.std.specs.Prelude.{◌≡◌};
    ghost use Rattle.field.specs.Ring.{of_int};
    ghost use Rattle.air_expressions.specs.ExtTree.{ext_tree_of, constant};

    ghost is_whole = { λ n e. ext_tree_of e ≡ constant (of_int EF.ring n) };

    fn whole(n: i32) -> Self {
        Self::constant(EF::from_i32(n))
    }
}

impl<F: Field, EF: ExtensionField<F>> Expression<EF> for SymbolicExpressionExt<F, EF> {
    ghost use Rattle.std.proofs.Common.{ap, subst, sym};
    ghost use Rattle.air_expressions.specs.ExtDegree.{ext_degree_of};
    ghost use Rattle.air_expressions.specs.ExtLayout.{ExtFits};
    ghost use Rattle.air_expressions.specs.ExtMeaning.{ext_value_of};
    ghost use Rattle.air_expressions.specs.ExtTree.{ext_tree_of, constant, add, sub, mul, neg};

    type Seen = SeenExtWindow<F, EF>;

    ghost value = { λ e w. ext_value_of F.ring EF.ring EF.embed w (ext_tree_of e) };

    ghost degree = { λ e t. ext_degree_of t (ext_tree_of e) };

    ghost same = { λ a b. ext_tree_of b ≡ ext_tree_of a };

    ghost is_product = { λ a b r. ext_tree_of r ≡ mul (ext_tree_of a) (ext_tree_of b) };

    ghost within = { λ l e. ExtFits l (ext_tree_of e) };

    fn constant(x: EF) -> Self
        ensures { ext_tree_of result ≡ constant x }
    {
        SymbolicExpressionExt::Leaf(ExtLeaf::Constant(x))
    }

    fn add(self, alloc: Global, other: Self) -> Result<Self, AllocError>
        ensures { IfOk result (λ r. ext_tree_of r ≡ add (ext_tree_of self) (ext_tree_of other)) }
    {
        let (left, right) = boxed_pair(alloc, self, other)?;
        Ok(SymbolicExpressionExt::Add(left, right))
    }

    fn sub(self, alloc: Global, other: Self) -> Result<Self, AllocError>
        ensures { IfOk result (λ r. ext_tree_of r ≡ sub (ext_tree_of self) (ext_tree_of other)) }
    {
        let (left, right) = boxed_pair(alloc, self, other)?;
        Ok(SymbolicExpressionExt::Sub(left, right))
    }

    fn mul(self, alloc: Global, other: Self) -> Result<Self, AllocError>
        ensures { IfOk result (λ r. ext_tree_of r ≡ mul (ext_tree_of self) (ext_tree_of other)) }
    {
        let (left, right) = boxed_pair(alloc, self, other)?;
        Ok(SymbolicExpressionExt::Mul(left, right))
    }

    fn neg(self, alloc: Global) -> Result<Self, AllocError>
        ensures { IfOk result (λ r. ext_tree_of r ≡ neg (ext_tree_of self)) }
    {
        let inner = Box::new(alloc, self)?;
        Ok(SymbolicExpressionExt::Neg(inner))
    }

    fn copy(&self, alloc: Global) -> Result<Self, AllocError>
        ensures { IfOk result (λ r. ext_tree_of r ≡ ext_tree_of self.now) }
    {
        match self {
            SymbolicExpressionExt::Leaf(leaf) => Ok(SymbolicExpressionExt::Leaf(leaf.copy(alloc)?)),
            SymbolicExpressionExt::Add(a, b) => {
                let (a, b) = both(a.copy(alloc)?, b.copy(alloc))?;
                a.add(alloc, b)
            }
            SymbolicExpressionExt::Sub(a, b) => {
                let (a, b) = both(a.copy(alloc)?, b.copy(alloc))?;
                a.sub(alloc, b)
            }
            SymbolicExpressionExt::Mul(a, b) => {
                let (a, b) = both(a.copy(alloc)?, b.copy(alloc))?;
                a.mul(alloc, b)
            }
            SymbolicExpressionExt::Neg(a) => a.copy(alloc)?.neg(alloc),
        }
    }

    ghost whole_value = { λ n x w h. ap (ext_value_of F.ring EF.ring EF.embed w) h };

    ghost whole_degree = { λ n x t h. ap (ext_degree_of t) h };

    ghost whole_within = { λ n x l h. subst (ExtFits l) (sym h) tt };
}
