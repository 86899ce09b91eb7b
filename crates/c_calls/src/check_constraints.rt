//! The call that checks whether constraints hold on the traces of an AIR.
ghost use Rattle.std.specs.Prelude.{MatchResult};
ghost use Rattle.field_monty.specs.laws.BabyBear.{baby_bear_positive};
ghost use Rattle.c_calls.specs.Constraints.{AnswersCheckConstraints, ChecksConstraints, HoldFitting, IsCheckConstraintsRefusal, IsHoldRefusal};
ghost use Rattle.c_calls.specs.Inputs.{view_of_read};

use crate::constraints::{check_constraints_fit, constraints_of};
use crate::fault::Fault;
use crate::generate::traces_as_one;
use crate::inputs::traces_of;
use crate::refusal::{Refusal, accept, refuse};
use air_constraints::check_constraints;
use air_expressions::SymbolicExpression;
use c_tables::{ReadTraces, Span, Tables, Traces};
use field::PrimeCharacteristicRing;
use field_monty::{BabyBear, BabyBearParameters, MontyField31, QuarticParameters};
use std::alloc::Global;

/// Whether constraints fit traces that were read, and are zero on each row of them.
fn check_read<const P: u32, K: QuarticParameters<P>>(
    traces: &ReadTraces<MontyField31<P, K>>,
    constraints: &[SymbolicExpression<MontyField31<P, K>>],
) -> Result<(), Fault>
    ensures { let R = ⟦<MontyField31<P, K> as PrimeCharacteristicRing>⟧.ring in
        MatchResult result (λ _. HoldFitting (view_of_read traces.now) constraints.now R)
        (IsHoldRefusal (view_of_read traces.now) constraints.now R) }
{
    check_constraints_fit(traces, constraints)?;
    match check_constraints(constraints, &traces_as_one(traces)) {
        Ok(()) => Ok(()),
        Err(fault) => Err(Fault::Nonzero(fault)),
    }
}

/// Does what `volgwain_check_constraints` does, over any prime field below 2^31.
///
/// Refuses the first of these with a fault: the range of the constraints, the traces, constraints that do not fit
/// them, the heights of the traces, and a constraint that is not zero on a row.
pub(crate) fn answer_check_constraints<const P: u32, K: QuarticParameters<P>>(
    alloc: Global,
    tables: &Tables<'_>,
    constraints: &Span,
    traces: &Traces<'_>,
) -> Result<(), Fault>
    ensures { let R = ⟦<MontyField31<P, K> as PrimeCharacteristicRing>⟧.ring in
        MatchResult result
        (λ _. ChecksConstraints K.positive R tables.now constraints.now traces.now)
        (IsCheckConstraintsRefusal K.positive R tables.now constraints.now traces.now) }
{
    let list = constraints_of::<P, K>(alloc, tables.nodes, *constraints)?;
    let read = traces_of::<P, K>(alloc, 0, traces)?;
    check_read(&read, &list)
}

/// Checks that the constraints that stand in a range of the nodes are zero on each row of the traces. No other table
/// is read.
///
/// Answers 0 if they are, and otherwise the code of the first refusal, which names the first row and constraint.
#[unsafe(no_mangle)]
pub extern "C" fn volgwain_check_constraints(
    alloc: Global,
    tables: &Tables<'_>,
    constraints: &Span,
    traces: &Traces<'_>,
    refusal: &mut Refusal,
    text: &mut [u8],
) -> u32
    ensures answers { AnswersCheckConstraints baby_bear_positive
        ⟦<BabyBear as PrimeCharacteristicRing>⟧.ring tables.now constraints.now traces.now result
        refusal.new }
{
    match answer_check_constraints::<2_013_265_921, BabyBearParameters>(
        alloc,
        tables,
        constraints,
        traces,
    ) {
        Ok(()) => accept(refusal),
        Err(fault) => refuse(&fault, refusal, text),
    }
}
