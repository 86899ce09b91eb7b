//! The call that counts the messages of a batch.
ghost use Rattle.std.specs.Prelude.{◌≡◌, ◌≢◌, MatchResult};
ghost use Rattle.std.specs.Result.{OnErr};
ghost use Rattle.field_monty.specs.laws.BabyBear.{baby_bear_positive};
ghost use Rattle.c_calls.specs.SoundnessCount.{AnswersSoundnessCount, AreSoundnessCountNumbers, IsLinearCountBound, IsSoundnessCountRefusal, SoundnessCountIsNumbers, SoundnessCountOfTables};

use crate::batch_tables::{Air, all_traces, plan_of, plan_traces};
use crate::fault::Fault;
use crate::outputs::{Wide, halves, optional_halves};
use crate::refusal::{Refusal, accept, refuse};
use c_tables::Traces;
use checker::SoundnessCount;
use field::Over;
use field_monty::{
    BabyBear, BabyBear4, BabyBearParameters, MontyField31, MontyQuartic, QuarticParameters,
};
use std::alloc::Global;

/// The counts of a batch.
#[repr(C)]
#[derive(Clone, Copy, Drop)]
pub struct Counts {
    /// How many distinct messages there are.
    pub messages: Wide,
    /// How many of them do not balance.
    pub unbalanced: Wide,
    /// The bound of bad betas.
    pub bad_betas: Wide,
    /// 1 if some messages do not balance, and 0 if all do.
    pub bounded: u32,
    /// The bound of accepting alphas at every other beta, 0 if there is none.
    pub accepting_alphas: Wide,
    /// The bound of bad betas that is linear in the messages that do not balance.
    pub linear_bad_betas: Wide,
}

/// The linear bound of bad betas.
fn linear_bound(count: &SoundnessCount) -> Wide
    ensures { IsLinearCountBound count.now result }
{
    halves(count.linear_bad_betas())
}

/// Counts as C sees them.
fn counts_of(count: &SoundnessCount) -> Counts
    ensures { AreSoundnessCountNumbers count.now result }
{
    let (bounded, accepting_alphas) = optional_halves(count.accepting_alphas);
    Counts {
        messages: halves(count.messages),
        unbalanced: halves(count.unbalanced),
        bad_betas: halves(count.bad_betas),
        bounded,
        accepting_alphas,
        linear_bad_betas: linear_bound(count),
    }
}

/// The counts of what tables encode.
///
/// Refuses the first of these with a fault: the plan of the AIRs, the traces, and the count.
fn count_messages<const P: u32, K: QuarticParameters<P>>(
    alloc: Global,
    airs: &[Air<'_>],
    traces: &[Traces<'_>],
) -> Result<SoundnessCount, Fault>
    ensures { let E = ⟦<MontyQuartic<P, K> as Over<MontyField31<P, K>>>⟧.fields in
        MatchResult result (SoundnessCountOfTables K.positive E airs.now traces.now)
        (IsSoundnessCountRefusal K.positive E airs.now traces.now) }
{
    let plan = plan_of::<P, K>(alloc, airs)?;
    let all = all_traces::<P, K>(alloc, traces)?;
    let given = plan_traces(alloc, &all)?;
    Ok(plan.soundness_count::<MontyQuartic<P, K>>(alloc, &given)?)
}

/// Does what `volgwain_soundness_count` does, over any prime field below 2^31.
pub(crate) fn answer_soundness_count<const P: u32, K: QuarticParameters<P>>(
    alloc: Global,
    airs: &[Air<'_>],
    traces: &[Traces<'_>],
    counts: &mut Counts,
) -> Result<(), Fault>
    ensures answers { let E = ⟦<MontyQuartic<P, K> as Over<MontyField31<P, K>>>⟧.fields in
        MatchResult result (λ _. SoundnessCountIsNumbers K.positive E airs.now traces.now
        counts.new) (IsSoundnessCountRefusal K.positive E airs.now traces.now) }
    ensures kept { OnErr result (counts.new ≡ counts.old) }
{
    let count = count_messages::<P, K>(alloc, airs, traces)?;
    *counts = counts_of(&count);
    Ok(())
}

/// Counts the messages of a batch, and bounds the challenges at which it can be accepted if they do not
/// balance.
///
/// Answers 0, or the code of a refusal. A refused call leaves the counts as they were.
#[unsafe(no_mangle)]
pub extern "C" fn volgwain_soundness_count(
    alloc: Global,
    airs: &[Air<'_>],
    traces: &[Traces<'_>],
    counts: &mut Counts,
    refusal: &mut Refusal,
    text: &mut [u8],
) -> u32
    ensures answers { AnswersSoundnessCount baby_bear_positive
        ⟦<BabyBear4 as Over<BabyBear>>⟧.fields airs.now traces.now counts.new result refusal.new }
    ensures kept { result ≢ 0 → counts.new ≡ counts.old }
{
    match answer_soundness_count::<2_013_265_921, BabyBearParameters>(alloc, airs, traces, counts) {
        Ok(()) => accept(refusal),
        Err(fault) => refuse(&fault, refusal, text),
    }
}
