//! The call of a verifier on a range of the rows of one AIR.
ghost use Rattle.std.specs.Prelude.{◌≡◌};
ghost use Rattle.field_monty.specs.laws.BabyBear.{baby_bear_positive};
ghost use Rattle.lookup_model.specs.Batches.Instances.{instance_of};
ghost use Rattle.c_calls.specs.Inputs.{view_of_read};
ghost use Rattle.c_calls.specs.VerifyRows.{AnswersVerifyRows, instance_with_ids};
ghost use Rattle.c_calls.specs.internal.PlannedAirs.{ResultOfVerifyRows};

use crate::fault::Fault;
use crate::plan::PlanSizes;
use crate::planned_air::{InPlan, PlannedAir, read_air};
use crate::refusal::{Refusal, accept, refuse};
use crate::rows::{Rows, range_of};
use crate::witness::{AirWitness, read_auxiliary, read_terminal};
use batch::BatchError;
use c_tables::{Tables, Traces};
use checker::{BatchInstance, check_shape, rows_hold_around};
use field::Over;
use field_monty::{
    BabyBear, BabyBear4, BabyBearParameters, MontyField31, MontyQuartic, QuarticParameters,
};
use lookup::LookupError;
use std::alloc::Global;

/// An AIR with these ids, as a check takes it.
fn instance_of<'a, const P: u32, K: QuarticParameters<P>>(
    air: &'a PlannedAir<MontyField31<P, K>, MontyQuartic<P, K>>,
    ids: &'a [usize],
) -> BatchInstance<'a, MontyField31<P, K>>
    ensures { instance_of result
        ≡ instance_with_ids air.now.lookups.items ids.now (view_of_read air.now.traces) }
{
    BatchInstance {
        lookups: &air.lookups,
        main: &air.traces.main,
        preprocessed: air.traces.preprocessed.as_ref(),
        public_values: air.traces.public_values.as_slice(),
        ids,
    }
}

/// Does what `volgwain_verify_rows` does, over any prime field below 2^31.
///
/// Refuses the first of these with a fault: the AIR, as `read_air` does, the range, the height of the traces,
/// the witness, its shape, and a row on which a constraint is not zero.
pub(crate) fn answer_verify_rows<const P: u32, K: QuarticParameters<P>>(
    alloc: Global,
    tables: &Tables<'_>,
    around: &Traces<'_>,
    rows: &Rows,
    plan: &InPlan<'_>,
    witness: &AirWitness<'_>,
) -> Result<(), Fault>
    ensures { let E = ⟦<MontyQuartic<P, K> as Over<MontyField31<P, K>>>⟧.fields in
        ResultOfVerifyRows K.positive E tables.now around.now rows.now plan.now witness.now result }
{
    let air = read_air::<P, K>(alloc, tables, around, plan)?;
    let range = range_of(rows, &air.traces)?;
    let aux = read_auxiliary::<P, K>(alloc, 0, witness)?;
    let terminal = read_terminal::<P, K>(0, witness.terminal)?;
    let instance = instance_of(&air, plan.ids);
    if let Err(error) = check_shape(0, &instance, &aux, &terminal) {
        return Err(Fault::Batch(BatchError::Lookup(error)));
    }
    let row = rows_hold_around(alloc, &instance, &air.challenges, &aux, &terminal, range)?;
    if row < range.end {
        let error = LookupError::ConstraintFailed { air: 0, row };
        return Err(Fault::Batch(BatchError::Lookup(error)));
    }
    Ok(())
}

/// Whether every constraint of one AIR of a planned batch is zero on the rows of a range.
///
/// `around` and the witness have the rows around the range alone, as for `volgwain_generate_rows`; the
/// terminal is that of the whole trace. The ids and the sizes are as for `volgwain_generate_by_ids`. That the
/// terminals of a batch sum to zero is for the caller to see to. An AIR with lookups needs a row: over none nothing
/// binds its terminal.
///
/// Answers 0 if it is, and otherwise the code of the first refusal, which names its row in the whole trace.
#[unsafe(no_mangle)]
pub extern "C" fn volgwain_verify_rows(
    alloc: Global,
    tables: &Tables<'_>,
    around: &Traces<'_>,
    rows: &Rows,
    ids: &[usize],
    sizes: &PlanSizes,
    alpha: &[u32; 4],
    beta: &[u32; 4],
    witness: &AirWitness<'_>,
    refusal: &mut Refusal,
    text: &mut [u8],
) -> u32
    ensures answers { AnswersVerifyRows baby_bear_positive ⟦<BabyBear4 as Over<BabyBear>>⟧.fields
        tables.now around.now rows.now ids.now sizes.now alpha.now beta.now witness.now result
        refusal.new }
{
    let plan = InPlan {
        ids,
        sizes,
        alpha,
        beta,
    };
    match answer_verify_rows::<2_013_265_921, BabyBearParameters>(
        alloc, tables, around, rows, &plan, witness,
    ) {
        Ok(()) => accept(refusal),
        Err(fault) => refuse(&fault, refusal, text),
    }
}
