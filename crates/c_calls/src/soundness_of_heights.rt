//! The call that bounds the challenges of a batch by the heights of its traces alone.
ghost use Rattle.std.specs.Prelude.{◌≡◌, ◌≢◌, MatchResult};
ghost use Rattle.std.specs.Result.{OnErr};
ghost use Rattle.c_calls.specs.SoundnessOfHeights.{AreHeightCountNumbers, HeightCountIsNumbers, HeightCountOfTables, IsSoundnessOfHeightsRefusal};
ghost use Rattle.c_calls.specs.CallAnswers.{CallAnswers};

use crate::batch_tables::{Air, plan_of};
use crate::fault::Fault;
use crate::outputs::{Wide, halves, optional_halves};
use crate::refusal::{Refusal, accept, refuse};
use batch::HeightSoundness;
use field::Over;
use field_monty::{
    BabyBear, BabyBear4, BabyBearParameters, MontyField31, MontyQuartic, QuarticParameters,
};
use std::alloc::Global;

/// The counts of a batch by its heights.
#[repr(C)]
#[derive(Clone, Copy, Drop)]
pub struct HeightCounts {
    /// The most messages that there can be.
    pub most_messages: Wide,
    /// The bound of betas that are bad by heights.
    pub bad_betas: Wide,
    /// 1 if there can be messages, and 0 if not.
    pub bounded: u32,
    /// The bound of accepting alphas at every other beta, 0 if there is none.
    pub accepting_alphas: Wide,
}

/// Counts by heights as C sees them.
fn counts_of(count: &HeightSoundness) -> HeightCounts
    ensures { AreHeightCountNumbers count.now result }
{
    let (bounded, accepting_alphas) = optional_halves(count.accepting_alphas);
    HeightCounts {
        most_messages: halves(count.most_messages),
        bad_betas: halves(count.bad_betas),
        bounded,
        accepting_alphas,
    }
}

/// The counts by heights of what tables encode.
///
/// Refuses the plan of the AIRs, or else the count.
fn count_by_heights<const P: u32, K: QuarticParameters<P>>(
    alloc: Global,
    airs: &[Air<'_>],
) -> Result<HeightSoundness, Fault>
    ensures { let E = ⟦<MontyQuartic<P, K> as Over<MontyField31<P, K>>>⟧.fields in
        MatchResult result (HeightCountOfTables E airs.now)
        (IsSoundnessOfHeightsRefusal E airs.now) }
{
    let plan = plan_of::<P, K>(alloc, airs)?;
    Ok(plan.soundness_of_heights::<MontyQuartic<P, K>>()?)
}

/// Does what `volgwain_soundness_of_heights` does, over any prime field below 2^31.
pub(crate) fn answer_soundness_of_heights<const P: u32, K: QuarticParameters<P>>(
    alloc: Global,
    airs: &[Air<'_>],
    counts: &mut HeightCounts,
) -> Result<(), Fault>
    ensures answers { let E = ⟦<MontyQuartic<P, K> as Over<MontyField31<P, K>>>⟧.fields in
        MatchResult result (λ _. HeightCountIsNumbers E airs.now counts.new)
        (IsSoundnessOfHeightsRefusal E airs.now) }
    ensures kept { OnErr result (counts.new ≡ counts.old) }
{
    let count = count_by_heights::<P, K>(alloc, airs)?;
    *counts = counts_of(&count);
    Ok(())
}

/// Counts the most messages that a batch over traces of these heights can have, and bounds the challenges
/// at which it can be accepted although it does not balance.
///
/// Answers 0, or the code of a refusal. A refused call leaves the counts as they were.
#[unsafe(no_mangle)]
pub extern "C" fn volgwain_soundness_of_heights(
    alloc: Global,
    airs: &[Air<'_>],
    counts: &mut HeightCounts,
    refusal: &mut Refusal,
    text: &mut [u8],
) -> u32
    ensures answers { let E = ⟦<BabyBear4 as Over<BabyBear>>⟧.fields in
        CallAnswers result refusal.new (HeightCountIsNumbers E airs.now counts.new)
        (IsSoundnessOfHeightsRefusal E airs.now) }
    ensures kept { result ≢ 0 → counts.new ≡ counts.old }
{
    match answer_soundness_of_heights::<2_013_265_921, BabyBearParameters>(alloc, airs, counts) {
        Ok(()) => accept(refusal),
        Err(fault) => refuse(&fault, refusal, text),
    }
}
