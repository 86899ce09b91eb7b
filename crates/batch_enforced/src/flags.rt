//! Constraints that hold make enforced flags lawful.
ghost use Rattle.std.specs.Prelude.{List};
ghost use Rattle.air_expressions.specs.declared.base_expression.SymbolicExpression.{SymbolicExpression};
ghost use Rattle.batch_enforced.specs.Constrained.{AreConstrained};
ghost use Rattle.lookup_model.specs.Batches.Instances.{Instance};
ghost use Rattle.lookup_model.specs.Batches.Messages.{AreFlagsLawful};

use field::Field;

/// Let the constraints of each AIR enforce the flags of its lookups at the height of its traces, and hold on all
/// rows of these. Then all flags of the batch are lawful: a theorem, as the contract of a function that does
/// nothing.
pub fn flags_are_enforced<F: Field>()
    ensures { (constraints : List (List (SymbolicExpression F))) (instances : List (Instance F))
        → AreConstrained F.ring F.eq constraints instances
        → AreFlagsLawful F.ring F.eq instances }
{}
