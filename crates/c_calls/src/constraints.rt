//! Constraints that a call reads: a range of nodes of the tables of an AIR.
ghost use Rattle.std.specs.Prelude.{◌↔◌, IsTrue, MatchResult};
ghost use Rattle.c_tables.specs.Tables.{RangeEncodes};
ghost use Rattle.c_calls.specs.Constraints.{FitConstraints, IsConstraintsRefusal, IsConstraintsUnfit, StayWithin};
ghost use Rattle.c_calls.specs.Inputs.{view_of_read};

use crate::fault::Fault;
use air_expressions::{AirLayout, SymbolicExpression};
use c_tables::{Node, ReadTraces, Span, TableFault, read_range};
use field_monty::{MontyField31, QuarticParameters};
use std::alloc::Global;

/// The constraints that stand in a range of nodes.
pub(crate) fn constraints_of<const P: u32, K: QuarticParameters<P>>(
    alloc: Global,
    nodes: &[Node],
    span: Span,
) -> Result<Vec<SymbolicExpression<MontyField31<P, K>>>, Fault>
    ensures { MatchResult result (λ v. RangeEncodes nodes.now span v.items)
        (IsConstraintsRefusal P nodes.now span) }
{
    match read_range(alloc, nodes, span) {
        Ok(constraints) => Ok(constraints),
        Err(TableFault::Memory) => Err(Fault::Memory),
        Err(fault) => Err(Fault::Constraints { fault }),
    }
}

/// Whether constraints stay within a layout.
fn all_fit<F>(constraints: &[SymbolicExpression<F>], layout: &AirLayout) -> bool
    ensures { IsTrue result ↔ StayWithin layout.now constraints.now }
{
    constraints.iter().all(|constraint| constraint.fits(layout))
}

/// Whether constraints fit the traces of their AIR, and these have one height.
///
/// Refuses constraints that read past the traces, and then a preprocessed trace of another height.
pub(crate) fn check_constraints_fit<const P: u32, K: QuarticParameters<P>>(
    traces: &ReadTraces<MontyField31<P, K>>,
    constraints: &[SymbolicExpression<MontyField31<P, K>>],
) -> Result<(), Fault>
    ensures { MatchResult result
        (λ _. FitConstraints (view_of_read traces.now) constraints.now)
        (IsConstraintsUnfit (view_of_read traces.now) constraints.now) }
{
    let main = &traces.main;
    let preprocessed = traces.preprocessed.as_ref();
    let layout = AirLayout::of_traces(main, preprocessed, traces.public_values.as_slice());
    if !all_fit(constraints, &layout) {
        return Err(Fault::UnfitConstraints);
    }
    if let Some(trace) = preprocessed {
        if trace.height() != main.height() {
            return Err(Fault::Heights { air: 0 });
        }
    }
    Ok(())
}
