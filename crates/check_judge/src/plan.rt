//! A batch, judged before any trace is seen.
ghost use Rattle.std.specs.Prelude.{◌≡◌, ◌⊎◌, ◌↔◌, All, IfOk, IsTrue, List, MatchResult, Ok, length, map};
ghost use Rattle.std.specs.List.{AllZip};
ghost use Rattle.batch.specs.Plans.{Plan};
ghost use Rattle.batch.specs.Runs.{plan_of};
ghost use Rattle.field.specs.Ring.{of_nat};
ghost use Rattle.lookup.specs.Lookups.{lookups_of};
ghost use Rattle.language_meaning.specs.Shapes.{shape_of};
ghost use Rattle.check_judge.specs.Causes.{IsPlanJudgeRefusal, IsPlanningRefusal, IsReportRefusal};
ghost use Rattle.check_judge.specs.Found.{IsPlanFound, IsPlanOf, sized_over};
ghost use Rattle.check_judge.specs.Said.{AreLookupsOf, SayOver, airs_of};
ghost use Rattle.check_judge.specs.internal.Sizes.{sized_lookups_of};
ghost use Rattle.check_judge.specs.internal.Sharing.{AllHaveTuples};
ghost use Rattle.lookup_model.specs.declared.types.Lookup.{Lookup};
ghost use Rattle.language_meaning.specs.Buses.{distinct_buses};
ghost use Rattle.language_meaning.specs.Lookups.{Said};
ghost use Rattle.language.specs.Batches.{air_of, section_of};
ghost use Rattle.air_expressions.specs.Tree.{tree_of};
ghost use Rattle.language_meaning.specs.Columns.{constraints_in};
ghost use Rattle.language_meaning.specs.Lookups.{constraint_of};
ghost use Rattle.check_judge.specs.Counts.{counts_in};
ghost use Rattle.check_judge.specs.Enforced.{AreAsserted, AreEnforcedAirs, Asserted, IsAllEnforced};

use crate::airs::{airs_named, airs_of, sets_over};
use crate::counts::counts_of;
use crate::enforced::{AssertedAir, EnforcedAirs, enforced_before};
use crate::fault::JudgeFault;
use crate::report::{PlanJudgement, PlanReport};
use crate::sizes::{SizedAir, height_sum, reports_of};
use batch::BatchPlan;
use field::{ExtensionField, Field, Over};
use language::{AirText, BatchText};
use language_meaning::{AirShape, NamedAir, check_buses, constraints_over};
use lookup::Lookups;
use std::alloc::{AllocError, Global};

/// What is found of a batch before any trace is seen, over traces of these shapes, one for each AIR
/// in the order of the text, with columns packed within `max_degree`; and what its constraints enforce on all traces of
/// these heights.
///
/// Refuses, in this order: a bus that is declared twice; another number of shapes than of AIRs; then AIR by
/// AIR the faults of `lookups_of`; AIR by AIR those of `lookups_over`; then what `BatchPlan::new`
/// and `BatchPlan::soundness_of_heights` refuse; and last, AIR by AIR, lookups that cannot be packed or
/// whose degree does not fit 64 bits. Also fails when out of memory.
pub fn judge_plan<F: Field, EF: ExtensionField<F>>(
    alloc: Global,
    text: &[u8],
    batch: &BatchText,
    shapes: &[AirShape],
    max_degree: usize,
) -> Result<PlanJudgement, JudgeFault>
    ensures { let E = ⟦<EF as Over<F>>⟧.fields in
        let sections = map section_of batch.now.sections.items in
        let sizes = map shape_of shapes.now in
        MatchResult result (λ judged. (distinct_buses text.now sections ≡ Ok tt)
        × (said : List Said) × (lookups : List (List (Lookup (F))))
        × (plan : Plan (F)) × (airs : List (Asserted (F)))
        × SayOver text.now sections 1048576 (airs_of sections) sizes said
        × AllZip (AreLookupsOf (of_nat F.ring) text.now) said lookups
        × IsPlanFound E F.CHARACTERISTIC max_degree (sized_over lookups sizes) plan judged.report
        × AreAsserted (of_nat F.ring) text.now (airs_of sections) sizes said airs
        × AreEnforcedAirs F.ring F.eq airs judged.enforced.airs.items
        × (IsTrue judged.enforced.all ↔ All IsAllEnforced judged.enforced.airs.items))
        (λ e. (e ≡ JudgeFault.Memory)
        ⊎ IsPlanJudgeRefusal E F.CHARACTERISTIC text.now sections max_degree sizes e) }
{
    check_buses(text, batch)?;
    let named = airs_named(alloc, text, batch, shapes)?;
    let sets = sets_over(alloc, text, &named)?;
    let airs = sized_airs(alloc, &sets, shapes)?;
    let plan = plan_over(alloc, &airs)?;
    let report = report_plan::<F, EF>(alloc, &airs, &plan, max_degree)?;
    let said = airs_of(alloc, batch)?;
    let asserted = asserted_airs(alloc, &said, &named, &sets, shapes)?;
    let enforced = EnforcedAirs::of_airs(enforced_before(alloc, &asserted)?);
    Ok(PlanJudgement { report, enforced })
}

/// The lookups of each AIR with its constraints, for traces of its shape.
fn asserted_airs<'a, F: Field>(
    alloc: Global,
    said: &[&AirText],
    named: &[NamedAir],
    sets: &'a [Lookups<F>],
    shapes: &[AirShape],
) -> Result<Vec<AssertedAir<'a, F>>, AllocError>
    requires said { length said.now ≡ length shapes.now }
    requires named { length named.now ≡ length shapes.now }
    requires sets { length sets.now ≡ length shapes.now }
    ensures lookups { IfOk result (λ v. map (λ a. lookups_of a.lookups.now) v.items ≡ map lookups_of sets.now) }
    ensures constraints { IfOk result (λ v. map (λ a. map tree_of a.constraints.items) v.items
        ≡ map (λ n. constraints_in (of_nat F.ring) (map constraint_of n.constraints.items)) named.now) }
    ensures counts { IfOk result (λ v. map (λ a. map (λ c. c.items) a.counts.items) v.items
        ≡ map (λ a. counts_in (air_of a.now).items) said.now) }
    ensures heights { IfOk result (λ v. map (λ a. a.height) v.items ≡ map (λ s. (shape_of s).rows) shapes.now) }
{
    let mut airs = Vec::with_capacity(alloc, shapes.len())?;
    for index in 0..shapes.len() {
        let constraints = constraints_over(alloc, &named[index].constraints)?;
        let counts = counts_of(alloc, &said[index].items)?;
        airs.push(AssertedAir {
            lookups: &sets[index],
            constraints,
            counts,
            height: shapes[index].rows as usize,
        })?;
    }
    Ok(airs)
}

/// Each set of lookups with the size of its AIR.
fn sized_airs<'a, F: Field>(
    alloc: Global,
    sets: &'a [Lookups<F>],
    shapes: &[AirShape],
) -> Result<Vec<SizedAir<'a, F>>, AllocError>
    requires { length sets.now ≡ length shapes.now }
    ensures { IfOk result (λ v. map sized_lookups_of v.items
        ≡ sized_over (map lookups_of sets.now) (map shape_of shapes.now)) }
{
    let mut airs = Vec::new(alloc);
    for index in 0..sets.len() {
        airs.push(SizedAir {
            lookups: &sets[index],
            rows: shapes[index].rows as usize,
            columns: shapes[index].columns.len(),
        })?;
    }
    Ok(airs)
}

/// The plan of these AIRs, over copies of their lookups.
pub(crate) fn plan_over<F: Field>(
    alloc: Global,
    airs: &[SizedAir<'_, F>],
) -> Result<BatchPlan<F>, JudgeFault>
    ensures { MatchResult result (λ plan. IsPlanOf F.CHARACTERISTIC (map sized_lookups_of airs.now) (plan_of plan))
        (λ e. (e ≡ JudgeFault.Memory)
        ⊎ IsPlanningRefusal F.CHARACTERISTIC (map sized_lookups_of airs.now) e) }
{
    let mut lookups = Vec::new(alloc);
    let mut heights = Vec::new(alloc);
    for air in airs {
        lookups.push(air.lookups.copy(alloc)?)?;
        heights.push(air.rows)?;
    }
    Ok(BatchPlan::new(alloc, lookups, heights)?)
}

/// What is found of a plan of these AIRs.
pub(crate) fn report_plan<F: Field, EF: ExtensionField<F>>(
    alloc: Global,
    airs: &[SizedAir<'_, F>],
    plan: &BatchPlan<F>,
    max_degree: usize,
) -> Result<PlanReport, JudgeFault>
    requires planned { IsPlanOf F.CHARACTERISTIC (map sized_lookups_of airs.now) (plan_of plan.now) }
    requires tuples { AllHaveTuples (map sized_lookups_of airs.now) }
    ensures { let E = ⟦<EF as Over<F>>⟧.fields in
        let sizes = map sized_lookups_of airs.now in
        MatchResult result (IsPlanFound E F.CHARACTERISTIC max_degree sizes (plan_of plan.now))
        (λ e. (e ≡ JudgeFault.Memory) ⊎ IsReportRefusal F.ring F.eq max_degree sizes (plan_of plan.now) e) }
{
    let heights = plan.soundness_of_heights::<EF>()?;
    Ok(PlanReport {
        airs: reports_of(alloc, airs, max_degree)?,
        ids: plan.num_ids(),
        widest: plan.max_message_width(),
        height_sum: height_sum(airs),
        characteristic: F::CHARACTERISTIC,
        heights,
    })
}
