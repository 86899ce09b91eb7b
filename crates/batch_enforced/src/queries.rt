//! Constraints that hold make enforced weights kept, and so queries provided.
ghost use Rattle.std.specs.Prelude.{Bool, List};
ghost use Rattle.air_expressions.specs.declared.base_expression.SymbolicExpression.{SymbolicExpression};
ghost use Rattle.batch.specs.Plans.{FitPlan, plan_batch};
ghost use Rattle.batch.specs.Runs.{plan_of};
ghost use Rattle.batch.specs.declared.trace.BatchTrace.{BatchTrace};
ghost use Rattle.batch_enforced.specs.Queries.{HaveEnforcedWeights, ProvidesQueries};

use batch::BatchPlan;
use field::Field;

/// Let the constraints of each AIR enforce the weights of its lookups at the height of its traces, and hold on all
/// rows of these. Then, if the messages balance, each key whose query numbers do not sum to zero is provided: a
/// theorem, as the contract of a function that does nothing.
///
/// Which tuples are queries is given, AIR by AIR and lookup by lookup; [`keeps_weight`](lookup_enforced::keeps_weight)
/// shows that a weight is enforced.
pub fn queries_are_provided<F: Field>(plan: &BatchPlan<F>)
    ensures { (constraints : List (List (SymbolicExpression F))) (queries : List (List (List Bool)))
        (traces : List (BatchTrace F)) → FitPlan (plan_of plan.now) traces
        → HaveEnforcedWeights F.ring F.eq constraints queries (plan_batch (plan_of plan.now) traces)
        → ProvidesQueries F.ring F.eq (plan_batch (plan_of plan.now) traces) queries }
{
    plan.laws();
}
