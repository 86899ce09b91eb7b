//! Expressions on the stack of the reader.
ghost use Rattle.std.specs.Prelude.{◌≡◌, ◌≤◌};
ghost use Rattle.air_expressions.specs.Depth.{depth_of};
ghost use Rattle.air_expressions.specs.Tree.{tree_of};

use air_expressions::SymbolicExpression;

/// An expression on the stack, with its depth.
#[derive(Drop)]
pub(crate) struct Part<F> {
    pub expression: SymbolicExpression<F>,
    pub depth: usize,
    pub ghost measured: { depth ≡ depth_of (tree_of expression) },
    pub ghost shallow: { depth ≤ 1024 },
}
