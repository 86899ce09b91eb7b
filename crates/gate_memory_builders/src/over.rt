//! The place where code over any builder is given the recorder.
ghost use Rattle.std.specs.Prelude.{◌≡◌};
ghost use Rattle.gate_memory_builders.specs.Layout.{swept_layout};

use crate::airs::BusCall;
use crate::any_builder::{Evaluation, call_five_times, evaluate, on_cells, resolve_all};
use crate::inputs::layout;
use crate::show::{Out, show};
use air::{PermutationAirBuilder, SymbolicExpression};
use field::{ExtensionField, Field};
use lookup::{InteractionBuilder, InteractionSymbolicBuilder, Lookup};
use std::alloc::Global;
use std::fmt::Debug;

/// Calls over a builder.
#[derive(Clone, Copy)]
pub enum Call {
    /// All that resolve expressions.
    Resolve,
    /// All that read cells, and the one that asserts some.
    Cells,
    /// One evaluation of lookups.
    Evaluation(Evaluation),
    /// One call of a bus, made five times.
    Bus(BusCall),
}

/// Makes calls with a recorder of their own. One place for all of them: it is dear to prove that a given builder
/// goes to code over any.
pub fn over_recorder<F: Field + Debug, EF: ExtensionField<F> + Debug>(
    alloc: Global,
    call: Call,
    out: &mut Out,
    trees: &[SymbolicExpression<F>],
    lookups: &[Lookup<F>],
) {
    let Ok(mut builder) = InteractionSymbolicBuilder::<F, EF>::new(alloc, layout()) else {
        return out.close();
    };
    over_any::<InteractionSymbolicBuilder<F, EF>>(alloc, call, out, &mut builder, trees, lookups);
    drop(builder);
}

/// Makes calls over a builder.
fn over_any<AB: PermutationAirBuilder + InteractionBuilder + Debug>(
    alloc: Global,
    call: Call,
    out: &mut Out,
    builder: &mut AB,
    trees: &[SymbolicExpression<AB::F>],
    lookups: &[Lookup<AB::F>],
)
where
    AB::Expr: Debug,
    requires { AB.layout builder.old ≡ swept_layout }
{
    match call {
        Call::Resolve => resolve_all(alloc, out, trees, &*builder),
        Call::Cells => on_cells(alloc, out, builder),
        Call::Evaluation(evaluation) => {
            let answer = evaluate(alloc, builder, lookups, evaluation);
            show(out, evaluation.name(), answer);
            show(out, "left", &*builder);
        }
        Call::Bus(bus_call) => call_five_times(alloc, out, builder, bus_call),
    }
}
