//! Plans of batches.
ghost use Rattle.std.specs.Prelude.{◌≡◌, MatchResult, length, map};
ghost use Rattle.std.specs.List.{AllZip};
ghost use Rattle.batch.specs.PlanFacts.{IsPlan};
ghost use Rattle.batch.specs.Plans.{plan_with};
ghost use Rattle.batch.specs.WitnessCounts.{IsCountRefusal};
ghost use Rattle.batch.specs.internal.ReachProps.{reaches_prop};
ghost use Rattle.batch.specs.Reaches.{IsReachOf};
ghost use Rattle.lookup.specs.Lookups.{lookups_of};

use crate::assigned::are_assigned;
use crate::error::BatchError;
use crate::grid::{GridCount, count_grid};
use crate::heights::{HeightSoundness, soundness_by_heights};
use crate::ids::{PlanIds, plan_ids};
use crate::instances::{air_over, check_traces, make_batch};
use crate::reach::{Reach, reaches_of};
use crate::trace::BatchTrace;
use crate::widths::{check_airs, widest_tuple};
use checker_batches::{
    counted_soundness, generate_batch, linear_soundness, packing_keeps_batch, soundness_count,
};
use checker_witness::{check_in_columns, results_join};
use field::{ExtensionField, Field, Over};
use lookup::{
    Challenges, LogUpGadget, LookupError, LookupProtocol, Lookups, check_multiplicity_height_bound,
    height_law,
};
use lookup_model::{BatchInstance, SoundnessCount, Witness};
use std::alloc::{AllocError, Global};

/// The lookups of the AIRs of a batch with their ids, and the heights of the traces.
///
/// The ids are lawful for challenges of `num_ids` prefixes and tuples of at most `max_message_width`
/// elements: they are below `num_ids`, and two lookups have the same id exactly if they are on one bus.
/// There are at most as many prefixes as the characteristic, and all tuples under one id have the same
/// width. No count of queries can wrap as long as they stay within their weights: the sum of weights
/// times heights is below the characteristic.
///
/// [`new`](BatchPlan::new) gives the ids itself; [`with_ids`](BatchPlan::with_ids) takes those of another
/// prover.
#[derive(Debug, Drop)]
pub struct BatchPlan<F: Field> {
    airs: Vec<Lookups<F>>,
    heights: Vec<usize>,
    ids: Vec<Vec<usize>>,
    max_message_width: usize,
    num_ids: usize,
    reaches: Vec<Reach>,
    pub ghost facts: { IsPlan F.CHARACTERISTIC (plan_with airs.items heights.items ids.items max_message_width num_ids) },
    pub ghost are_reaches: { AllZip (λ reach air. IsReachOf reach (lookups_of air)) reaches.items airs.items } by { reaches_prop reaches.items airs.items },
}

impl<F: Field> BatchPlan<F> {
    ghost use Rattle.batch.specs.Checks.{HaveEvenWidths, IsPlanFor, IsPlanOver, IsPlanRefusal, IsRefusalOver, IsSizeRefusal, OrMemory, plan_over};
    ghost use Rattle.batch.specs.Lists.{lists_of};
    ghost use Rattle.batch.specs.PlanFacts.{AreAssigned};
    ghost use Rattle.batch.specs.Packing.{ArePackedAirs, KeepsPlanCounts};
    ghost use Rattle.batch.specs.Grids.{CountsPlanGrid, PlanStaysWithinLinearBound, StaysWithinBound};
    ghost use Rattle.batch.specs.Heights.{BoundsAllTraces, CountsHeights, most_planned};
    ghost use Rattle.batch.specs.PlanBatches.{HasLawfulIds, InstancesFitPlan};
    ghost use Rattle.batch.specs.Plans.{FitPlan, IsMisfit, plan_batch};
    ghost use Rattle.checker_witness.specs.Answers.{ChecksWitness};
    ghost use Rattle.lookup_model.specs.Batches.Witnesses.{HasOneOfEach, results_of};
    ghost use Rattle.batch.specs.internal.PlanBatches.{MakesPlanBatch};
    ghost use Rattle.batch.specs.Runs.{PassIsCounted, Proves, ProvesBalanced, ProvesRegular, ProvesSatisfied, RefusesOnlyUnaccepted, Verifies, VerifiesOnlyPlain, plan_of, run_of};
    ghost use Rattle.batch.specs.SoundnessCounts.{CountsLinearly, CountsPlan, CountsSoundly};
    ghost use Rattle.lookup.specs.Weights.{HeightLaws};

    /// The plan of these AIRs, whose traces have these heights.
    ///
    /// Its ids are given from 0 in the order of AIRs and lookups: a local lookup takes the next one, and a
    /// lookup on a bus that of its bus, or the next one if the bus is new.
    ///
    /// Refuses the first of these that fails:
    ///
    /// - `LengthMismatch`: there is a height for each AIR;
    /// - `Lookup` of `BusWidthMismatch`, by [`check_bus_widths`](lookup::check_bus_widths);
    /// - `Lookup` of `TupleWidths` with the context `air A local lookup L`: the tuples of a local
    ///   lookup have one width;
    /// - `TooManyIds`: there are at most as many ids as the characteristic;
    /// - `Lookup` of `MultiplicityHeightBoundExceeded`, by [`check_multiplicity_height_bound`].
    ///
    /// Also fails when out of memory. The AIRs are dropped if it is refused.
    pub fn new(
        alloc: Global,
        airs: Vec<Lookups<F>>,
        heights: Vec<usize>,
    ) -> Result<Self, BatchError>
        ensures { MatchResult result (λ plan. IsPlanFor airs.items heights.items (plan_of plan))
            (OrMemory (IsPlanRefusal F.CHARACTERISTIC airs.items heights.items)) }
    {
        check_airs(alloc, airs.as_slice(), heights.as_slice())?;
        let PlanIds { ids, count } = plan_ids(alloc, airs.as_slice())?;
        BatchPlan::of_lawful(alloc, airs, heights, ids, count)
    }

    /// The plan of these AIRs, whose traces have these heights, over these ids: a list for each AIR, with the
    /// id of each lookup. There are prefixes for `num_ids` ids, and the width of messages is that
    /// of [`new`](BatchPlan::new). So a witness of another prover is verified under the ids that it was made
    /// with.
    ///
    /// `prove` and `grid_count` make a prefix for each number below `num_ids`, so great ids take much memory
    /// there; `verify` makes those of the ids in use alone.
    ///
    /// Refuses the first of these that fails:
    ///
    /// - `LengthMismatch` and `Lookup`, as [`new`](BatchPlan::new) does: the lengths, and the widths of tuples;
    /// - `UnlawfulIds`: there is an id for each lookup of each AIR, all are below `num_ids`, and two lookups
    ///   have the same id exactly if they are on one bus, so each local lookup has its own;
    /// - `TooManyIds`: `num_ids` is at most the characteristic;
    /// - `Lookup` of `MultiplicityHeightBoundExceeded`, by [`check_multiplicity_height_bound`].
    ///
    /// Also fails when out of memory. What it is given is dropped if it is refused.
    pub fn with_ids(
        alloc: Global,
        airs: Vec<Lookups<F>>,
        heights: Vec<usize>,
        ids: Vec<Vec<usize>>,
        num_ids: usize,
    ) -> Result<Self, BatchError>
        ensures { let given = lists_of ids.items in MatchResult result
            (λ plan. IsPlanOver airs.items heights.items given num_ids (plan_of plan))
            (OrMemory (IsRefusalOver F.CHARACTERISTIC airs.items heights.items given num_ids)) }
    {
        check_airs(alloc, airs.as_slice(), heights.as_slice())?;
        if !are_assigned(alloc, airs.as_slice(), ids.as_slice(), num_ids)? {
            return Err(BatchError::UnlawfulIds);
        }
        BatchPlan::of_lawful(alloc, airs, heights, ids, num_ids)
    }

    /// The plan over ids that are lawful, if there are not too many and the heights are not too great.
    fn of_lawful(
        alloc: Global,
        airs: Vec<Lookups<F>>,
        heights: Vec<usize>,
        ids: Vec<Vec<usize>>,
        num_ids: usize,
    ) -> Result<Self, BatchError>
        requires lengths { length heights.items ≡ length airs.items }
        requires widths { HaveEvenWidths airs.items }
        requires ids { AreAssigned (lists_of ids.items) airs.items num_ids }
        ensures { MatchResult result
            (λ plan. plan_of plan ≡ plan_over airs.items heights.items (lists_of ids.items) num_ids)
            (OrMemory (IsSizeRefusal airs.items heights.items F.CHARACTERISTIC num_ids)) }
    {
        if num_ids as u128 > F::CHARACTERISTIC {
            return Err(BatchError::TooManyIds { ids: num_ids });
        }
        check_multiplicity_height_bound(airs.as_slice(), heights.as_slice())?;
        let reaches = reaches_of(alloc, airs.as_slice())?;
        let max_message_width = widest_tuple(airs.as_slice()).max(1);
        Ok(BatchPlan {
            airs,
            heights,
            ids,
            max_message_width,
            num_ids,
            reaches,
        })
    }

    /// The lookups of each AIR.
    pub fn airs(&self) -> &[Lookups<F>]
        ensures { result.now ≡ self.now.airs.items }
    {
        &self.airs[..]
    }

    /// The height of the traces of each AIR.
    pub fn heights(&self) -> &[usize]
        ensures { result.now ≡ self.now.heights.items }
    {
        &self.heights[..]
    }

    /// The id of each lookup, AIR by AIR.
    pub fn ids(&self) -> &[Vec<usize>]
        ensures { result.now ≡ self.now.ids.items }
    {
        self.ids.as_slice()
    }

    /// The greatest width of all tuples, at least 1.
    pub fn max_message_width(&self) -> usize
        ensures { result ≡ self.now.max_message_width }
    {
        self.max_message_width
    }

    /// The number of ids.
    pub fn num_ids(&self) -> usize
        ensures { result ≡ self.now.num_ids }
    {
        self.num_ids
    }

    /// The auxiliary traces and the terminals of the AIRs over these traces, at a pair of challenges;
    /// see [`generate_batch`](checker::generate_batch).
    ///
    /// They satisfy the constraints of all lookups. If all flags are lawful and no denominator
    /// vanishes, the call succeeds unless memory runs out, and there are no others that do. If all
    /// messages balance, the terminals sum to zero.
    ///
    /// Refuses `LengthMismatch` unless there is a trace for each AIR, then `TraceMismatch` at the first
    /// AIR whose traces do not have the height of the plan or do not fit its lookups, then `Air` with
    /// the first fault of generation. Also fails when out of memory.
    pub fn prove<EF: ExtensionField<F>>(
        &self,
        alloc: Global,
        traces: &[BatchTrace<'_, F>],
        alpha: EF,
        beta: EF,
    ) -> Result<Witness<EF>, BatchError>
        ensures answer { Proves
            (run_of ⟦<EF as Over<F>>⟧.fields (plan_of self.now) traces.now alpha beta) result }
        ensures succeeds { ProvesRegular
            (run_of ⟦<EF as Over<F>>⟧.fields (plan_of self.now) traces.now alpha beta) result }
        ensures satisfied { ProvesSatisfied
            (run_of ⟦<EF as Over<F>>⟧.fields (plan_of self.now) traces.now alpha beta) result }
        ensures balanced { ProvesBalanced
            (run_of ⟦<EF as Over<F>>⟧.fields (plan_of self.now) traces.now alpha beta) result }
    {
        let batch = self.batch_over(alloc, traces)?;
        let challenges = Challenges::new(alloc, alpha, beta, self.max_message_width, self.num_ids)?;
        let witness = generate_batch(alloc, batch.as_slice(), &challenges)?;
        Ok(witness)
    }

    /// Whether a witness is accepted over these traces, at a pair of challenges; see
    /// [`check_witness`](checker::check_witness).
    ///
    /// If it is, alpha is one of those that [`soundness_count`](BatchPlan::soundness_count) counts. If
    /// all flags are lawful and no denominator vanishes, only the witness of `prove` can be.
    ///
    /// Refuses traces as `prove` does, then `LengthMismatch` unless there is an auxiliary trace and a
    /// terminal for each AIR, then `Lookup` with the first refusal of the witness. Also fails when out
    /// of memory.
    pub fn verify<EF: ExtensionField<F>>(
        &self,
        alloc: Global,
        traces: &[BatchTrace<'_, F>],
        alpha: EF,
        beta: EF,
        witness: &Witness<EF>,
    ) -> Result<(), BatchError>
        ensures answer { Verifies
            (run_of ⟦<EF as Over<F>>⟧.fields (plan_of self.now) traces.now alpha beta) witness.now result }
        ensures refusal { RefusesOnlyUnaccepted
            (run_of ⟦<EF as Over<F>>⟧.fields (plan_of self.now) traces.now alpha beta) witness.now result }
        ensures only { VerifiesOnlyPlain
            (run_of ⟦<EF as Over<F>>⟧.fields (plan_of self.now) traces.now alpha beta) witness.now result }
        ensures counted { PassIsCounted
            (run_of ⟦<EF as Over<F>>⟧.fields (plan_of self.now) traces.now alpha beta) result }
    {
        self.check_traces(traces)?;
        check_counts(self.airs.len(), witness)?;
        results_join::<F, EF>();
        self.check_results(alloc, traces, alpha, beta, witness)?;
        counted_soundness::<F, EF>();
        linear_soundness::<F, EF>();
        Ok(())
    }

    /// How many distinct messages the batch over these traces has, how many of them do not balance, and
    /// at how few challenges of `EF` it can still be accepted; see
    /// [`soundness_count`](checker::soundness_count).
    ///
    /// Refuses traces as `prove` does, then `Air` with the first fault of flags, then `CountOverflow` if
    /// `W * k * (k - 1) / 2` does not fit `u128`, where `k` messages do not balance and `W` is
    /// `max_message_width`. Also fails when out of memory.
    ///
    /// `linear` says that at most `W * (k - 1)` betas are bad, which
    /// [`linear_bad_betas`](SoundnessCount::linear_bad_betas) returns.
    pub fn soundness_count<EF: ExtensionField<F>>(
        &self,
        alloc: Global,
        traces: &[BatchTrace<'_, F>],
    ) -> Result<SoundnessCount, BatchError>
        ensures answer { CountsPlan ⟦<EF as Over<F>>⟧.fields (plan_of self.now) traces.now result }
        ensures sound { CountsSoundly ⟦<EF as Over<F>>⟧.fields (plan_of self.now) traces.now result }
        ensures linear { CountsLinearly ⟦<EF as Over<F>>⟧.fields (plan_of self.now) traces.now result }
    {
        let batch = self.batch_over(alloc, traces)?;
        let counts = soundness_count::<F, EF>(alloc, batch.as_slice(), self.max_message_width)?;
        Ok(counts)
    }

    /// The most messages of a batch over traces of these heights, and at how few challenges of `EF` it can
    /// be accepted although it does not balance; see [`HeightSoundness`].
    ///
    /// `sound` says so of all traces that fit the plan, if their flags are lawful.
    ///
    /// Refuses `CountOverflow` if one of the numbers does not fit `u128`. Allocates nothing.
    pub fn soundness_of_heights<EF: ExtensionField<F>>(&self) -> Result<HeightSoundness, BatchError>
        ensures answer { CountsHeights (most_planned self.now.airs.items self.now.heights.items)
            self.now.max_message_width result }
        ensures sound { BoundsAllTraces ⟦<EF as Over<F>>⟧.fields (plan_of self.now) }
    {
        linear_soundness::<F, EF>();
        let (airs, heights) = (self.airs.as_slice(), self.heights.as_slice());
        soundness_by_heights(airs, heights, self.max_message_width)
    }

    /// What holds of every plan: a theorem, as the contract of a function that does nothing.
    ///
    /// Of its batch over traces that fit, `fit` and `ids` say what the calls of `checker` require: the AIRs
    /// fit, and their ids are lawful for challenges of `num_ids` prefixes and tuples of at most
    /// `max_message_width` elements. `heights` is the height law of its AIRs; see [`height_law`].
    pub fn laws(&self)
        ensures fit { InstancesFitPlan (plan_of self.now) }
        ensures ids { HasLawfulIds (plan_of self.now) F.CHARACTERISTIC }
        ensures heights { HeightLaws F.ring F.eq (map lookups_of self.now.airs.items)
            self.now.heights.items }
    {
        height_law::<F>();
    }

    /// A plan of packed AIRs counts what this plan of the AIRs before counts: a theorem, as the contract of a
    /// function that does nothing.
    ///
    /// Let the lookups of each AIR be packed, so that they keep what `pack_same_bus` keeps, or be as they
    /// were. The plans may have other ids: `new` gives them in the order of lookups, which packing changes.
    /// Still, over traces that fit this plan both batches have as many distinct messages, and as many of them
    /// do not balance. Their tuples are as wide, so where `soundness_count` answers over both plans, the
    /// numbers are the same.
    pub fn packing_keeps_counts<EF: ExtensionField<F>>(&self, packed: &BatchPlan<F>)
        ensures counts { ArePackedAirs F.ring F.eq self.now.airs.items packed.now.airs.items
            → KeepsPlanCounts ⟦<EF as Over<F>>⟧.fields (plan_of self.now) (plan_of packed.now) }
        ensures width { ArePackedAirs F.ring F.eq self.now.airs.items packed.now.airs.items
            → packed.now.max_message_width ≡ self.now.max_message_width }
    {
        packing_keeps_batch::<F, EF>();
    }

    /// At how many pairs of these alphas and betas the batch over these traces is accepted, whoever makes
    /// the witness, and a bound on that number; see [`GridCount`].
    ///
    /// Refuses traces as `prove` does, then `RepeatedChallenge` if the alphas or the betas have one of
    /// them twice, then `Air` with the first fault of flags, as
    /// [`soundness_count`](BatchPlan::soundness_count) does, then `CountOverflow` if some messages do not
    /// balance and `W * k * (k - 1) / 2` or the bound does not fit `u128`. Also fails when out of memory.
    pub fn grid_count<EF: ExtensionField<F>>(
        &self,
        alloc: Global,
        traces: &[BatchTrace<'_, F>],
        alphas: &[EF],
        betas: &[EF],
    ) -> Result<GridCount, BatchError>
        ensures answer { CountsPlanGrid
            ⟦<EF as Over<F>>⟧.fields (plan_of self.now) traces.now alphas.now betas.now result }
        ensures within { StaysWithinBound result }
        ensures linear { PlanStaysWithinLinearBound
            ⟦<EF as Over<F>>⟧.fields (plan_of self.now) traces.now alphas.now betas.now result }
    {
        let batch = self.batch_over(alloc, traces)?;
        let (width, num_ids) = (self.max_message_width, self.num_ids);
        count_grid(alloc, batch.as_slice(), width, num_ids, alphas, betas)
    }

    /// Whether there are traces for each AIR that fit. Refuses traces as `batch_over` does, but allocates
    /// nothing.
    fn check_traces<'a>(&'a self, traces: &'a [BatchTrace<'a, F>]) -> Result<(), BatchError>
        ensures { MatchResult result (λ _. FitPlan (plan_of self.now) traces.now)
            (IsMisfit (plan_of self.now) traces.now) }
    {
        check_traces(
            self.airs.as_slice(),
            self.ids.as_slice(),
            self.heights.as_slice(),
            self.reaches.as_slice(),
            traces,
        )
    }

    /// Whether a witness of the batch over these traces is accepted at alpha and beta, as
    /// [`check_witness`](checker::check_witness) says it. Each AIR is checked alone, with the prefixes of its own
    /// ids: no list of instances is made, and no table.
    fn check_results<EF: ExtensionField<F>>(
        &self,
        alloc: Global,
        traces: &[BatchTrace<'_, F>],
        alpha: EF,
        beta: EF,
        witness: &Witness<EF>,
    ) -> Result<(), LookupError>
        requires traces { FitPlan (plan_of self.now) traces.now }
        requires parts { HasOneOfEach (plan_batch (plan_of self.now) traces.now) witness.now }
        ensures { let run = run_of ⟦<EF as Over<F>>⟧.fields (plan_of self.now) traces.now alpha beta in
            ChecksWitness run.fields run.table run.batch (results_of witness.now) result }
    {
        results_join::<F, EF>();
        let width = self.max_message_width;
        for air in 0..self.airs.len() {
            let instance = air_over(&self.airs[air], &self.ids[air], &traces[air]);
            let (aux, terminal) = (&witness.aux[air], &witness.terminals[air]);
            let challenges = Challenges::for_ids(alloc, alpha, beta, width, instance.ids)?;
            check_in_columns(alloc, air, &instance, &challenges, aux, terminal)?;
        }
        LogUpGadget::new().verify_terminal_sum(witness.terminals.as_slice())
    }

    /// The batch of the AIRs over these traces, under their ids.
    ///
    /// Refuses traces unless there is one for each AIR, then the first that do not fit.
    fn batch_over<'a>(
        &'a self,
        alloc: Global,
        traces: &'a [BatchTrace<'a, F>],
    ) -> Result<Vec<BatchInstance<'a, F>>, BatchError>
        ensures { MakesPlanBatch F.CHARACTERISTIC (plan_of self.now) traces.now result }
    {
        make_batch(
            alloc,
            self.airs.as_slice(),
            self.ids.as_slice(),
            self.heights.as_slice(),
            self.reaches.as_slice(),
            traces,
        )
    }
}

/// Whether a witness has an auxiliary trace and a terminal for each AIR.
fn check_counts<EF>(airs: usize, witness: &Witness<EF>) -> Result<(), BatchError>
    ensures { MatchResult result
        (λ _. (length witness.now.aux.items ≡ airs) × (length witness.now.terminals.items ≡ airs))
        (IsCountRefusal airs witness.now) }
{
    if witness.aux.len() != airs {
        return Err(BatchError::LengthMismatch {
            expected: airs,
            actual: witness.aux.len(),
        });
    }
    if witness.terminals.len() != airs {
        return Err(BatchError::LengthMismatch {
            expected: airs,
            actual: witness.terminals.len(),
        });
    }
    Ok(())
}
