//! Expressions as a builder sees them.
ghost use Rattle.std.specs.Prelude.{◌≡◌, ℕ, ◌≤◌, ◌<◌, ◌⊎◌, length, Some, slice_get, IfOk, IfErr};
ghost use Rattle.air_expressions.specs.Degree.{entry_degree, leaf_degree, degree_of};
ghost use Rattle.air_expressions.specs.Layout.{EntryFits, LeafFits, Fits};
ghost use Rattle.air_expressions.specs.MainWindow.{IsMainWindow};
ghost use Rattle.air_expressions.specs.Meaning.{row_at, variable_value, leaf_value, value_of};
ghost use Rattle.air_expressions.specs.Tree.{tree_of};
ghost use Rattle.air_expressions.specs.Window.{Window};

use crate::base_expression::{BaseLeaf, SymbolicExpression};
use crate::builder::AirBuilder;
use crate::error::AirError;
use crate::expression::Expression;
use crate::variable::{BaseEntry, SymbolicVariable};
use matrix::WindowAccess;
use std::alloc::{AllocError, Global};

impl<F> SymbolicExpression<F> {
    /// The expression over the builder's own variables and selectors.
    ///
    /// Fails with the builder's own refusal if it can't provide its window, or when out of memory.
    pub fn resolve<AB: AirBuilder<F = F>>(
        &self,
        alloc: Global,
        builder: &AB,
    ) -> Result<AB::Expr, AirError>
        requires { Fits (AB.layout builder.now) (tree_of self.now) }
        ensures means { IfOk result (λ r. (w : Window F) → AB.stands_for builder.now w
            → AB.Expr.value r (AB.seen w) ≡ value_of F.ring w (tree_of self.now)) }
        ensures degree { IfOk result (λ r. (t : ℕ)
            → AB.Expr.degree r t ≤ degree_of t (tree_of self.now)) }
        ensures refused { IfErr result (λ e. (e ≡ AirError.Memory)
            ⊎ AB.window_refuses builder.now e) }
    {
        let main = builder.main(alloc)?;
        Ok(resolve_over(alloc, self, builder, &main)?)
    }
}

/// The expression over the builder's variables and selectors, where `main` is the builder's main
/// window.
///
/// Fails only when out of memory.
pub fn resolve_over<AB: AirBuilder>(
    alloc: Global,
    expression: &SymbolicExpression<AB::F>,
    builder: &AB,
    main: &AB::MainWindow,
) -> Result<AB::Expr, AllocError>
    requires fits { Fits (AB.layout builder.now) (tree_of expression.now) }
    requires main { IsMainWindow AB.AirBuilder AB.MainWindow.WindowAccess builder.now main.now }
    ensures means { IfOk result (λ r. (w : Window AB.F) → AB.stands_for builder.now w
        → AB.Expr.value r (AB.seen w) ≡ value_of AB.F.ring w (tree_of expression.now)) }
    ensures degree { IfOk result (λ r. (t : ℕ)
        → AB.Expr.degree r t ≤ degree_of t (tree_of expression.now)) }
{
    match expression {
        SymbolicExpression::Leaf(leaf) => Ok(resolve_leaf(*leaf, builder, main)),
        SymbolicExpression::Add(a, b) => {
            let left = resolve_over(alloc, a, builder, main)?;
            let right = resolve_over(alloc, b, builder, main)?;
            left.add(alloc, right)
        }
        SymbolicExpression::Sub(a, b) => {
            let left = resolve_over(alloc, a, builder, main)?;
            let right = resolve_over(alloc, b, builder, main)?;
            left.sub(alloc, right)
        }
        SymbolicExpression::Mul(a, b) => {
            let left = resolve_over(alloc, a, builder, main)?;
            let right = resolve_over(alloc, b, builder, main)?;
            left.mul(alloc, right)
        }
        SymbolicExpression::Neg(a) => {
            let inner = resolve_over(alloc, a, builder, main)?;
            inner.neg(alloc)
        }
    }
}

fn resolve_leaf<AB: AirBuilder>(
    leaf: BaseLeaf<AB::F>,
    builder: &AB,
    main: &AB::MainWindow,
) -> AB::Expr
    requires fits { LeafFits (AB.layout builder.now) leaf }
    requires main { IsMainWindow AB.AirBuilder AB.MainWindow.WindowAccess builder.now main.now }
    ensures means { (w : Window AB.F) → AB.stands_for builder.now w
        → AB.Expr.value result (AB.seen w) ≡ leaf_value AB.F.ring w leaf }
    ensures degree { (t : ℕ) → AB.Expr.degree result t ≤ leaf_degree t leaf }
{
    match leaf {
        BaseLeaf::Variable(variable) => resolve_variable(variable, builder, main),
        BaseLeaf::IsFirstRow => builder.is_first_row(),
        BaseLeaf::IsLastRow => builder.is_last_row(),
        BaseLeaf::IsTransition => builder.is_transition(),
        BaseLeaf::Constant(x) => AB::Expr::constant(x),
    }
}

fn resolve_variable<AB: AirBuilder>(
    variable: SymbolicVariable<AB::F>,
    builder: &AB,
    main: &AB::MainWindow,
) -> AB::Expr
    requires fits { EntryFits (AB.layout builder.now) variable.entry variable.index }
    requires main { IsMainWindow AB.AirBuilder AB.MainWindow.WindowAccess builder.now main.now }
    ensures means { (w : Window AB.F) → AB.stands_for builder.now w
        → AB.Expr.value result (AB.seen w) ≡ variable_value AB.F.ring w variable }
    ensures degree { (t : ℕ) → AB.Expr.degree result t ≤ entry_degree variable.entry }
{
    match variable.entry {
        BaseEntry::Preprocessed { offset } => {
            cell(builder.preprocessed(), offset, variable.index).into()
        }
        BaseEntry::Main { offset } => cell(main, offset, variable.index).into(),
        BaseEntry::Public => builder.public_values()[variable.index].into(),
    }
}

/// Cell `index` of the current row at offset 0, else of the next one.
fn cell<V: Copy, W: WindowAccess<V>>(window: &W, offset: usize, index: usize) -> V
    requires readable { W.readable window.now }
    requires within { index < length (row_at offset (W.current window.now) (W.next window.now)) }
    ensures { slice_get (row_at offset (W.current window.now) (W.next window.now)) index
        ≡ Some result }
{
    if offset == 0 {
        window.current_slice()[index]
    } else {
        window.next_slice()[index]
    }
}
