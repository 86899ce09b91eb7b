//! The call of a verifier on the plan of a batch.
ghost use Rattle.field_monty.specs.laws.BabyBear.{baby_bear_positive};
ghost use Rattle.c_calls.specs.Verify.{AnswersVerify};
ghost use Rattle.c_calls.specs.internal.Batches.{ResultOfVerify};

use crate::batch_tables::{Air, all_traces, plan_of, plan_traces};
use crate::codes::Part;
use crate::fault::Fault;
use crate::inputs::challenge_of;
use crate::refusal::{Refusal, accept, refuse};
use crate::witness::{AirWitness, read_witness};
use c_tables::Traces;
use field::Over;
use field_monty::{
    BabyBear, BabyBear4, BabyBearParameters, MontyField31, MontyQuartic, QuarticParameters,
};
use std::alloc::Global;

/// Does what `volgwain_verify` does, over any prime field below 2^31.
///
/// Refuses the first of these with a fault: the plan of the AIRs, the traces, alpha, beta, the witness,
/// and its verification.
pub(crate) fn answer_verify<const P: u32, K: QuarticParameters<P>>(
    alloc: Global,
    airs: &[Air<'_>],
    traces: &[Traces<'_>],
    alpha: &[u32; 4],
    beta: &[u32; 4],
    witness: &[AirWitness<'_>],
) -> Result<(), Fault>
    ensures { let E = ⟦<MontyQuartic<P, K> as Over<MontyField31<P, K>>>⟧.fields in
        ResultOfVerify K.positive E airs.now traces.now alpha.now beta.now witness.now result }
{
    let plan = plan_of::<P, K>(alloc, airs)?;
    let all = all_traces::<P, K>(alloc, traces)?;
    let alpha = challenge_of::<P, K>(Part::Alphas, *alpha)?;
    let beta = challenge_of::<P, K>(Part::Betas, *beta)?;
    let witness = read_witness::<P, K>(alloc, witness)?;
    let given = plan_traces(alloc, &all)?;
    Ok(plan.verify(alloc, &given, alpha, beta, &witness)?)
}

/// Whether a witness of a batch, whoever made it, is accepted.
///
/// The plan is that of the AIRs' lookups, heights and ids, if these are given.
///
/// Answers 0 if the witness is accepted, and otherwise the code of the first refusal.
#[unsafe(no_mangle)]
pub extern "C" fn volgwain_verify(
    alloc: Global,
    airs: &[Air<'_>],
    traces: &[Traces<'_>],
    alpha: &[u32; 4],
    beta: &[u32; 4],
    witness: &[AirWitness<'_>],
    refusal: &mut Refusal,
    text: &mut [u8],
) -> u32
    ensures answers { AnswersVerify baby_bear_positive ⟦<BabyBear4 as Over<BabyBear>>⟧.fields
        airs.now traces.now alpha.now beta.now witness.now result refusal.new }
{
    match answer_verify::<2_013_265_921, BabyBearParameters>(
        alloc, airs, traces, alpha, beta, witness,
    ) {
        Ok(()) => accept(refusal),
        Err(fault) => refuse(&fault, refusal, text),
    }
}
