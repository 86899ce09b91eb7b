//! A batch, judged.
ghost use Rattle.std.specs.Prelude.{◌≡◌, ◌⊎◌, ◌↔◌, All, IfErr, IfOk, IsTrue, List, MatchResult, Ok, map};
ghost use Rattle.batch.specs.Runs.{plan_of};
ghost use Rattle.batch.specs.Traces.{view_of};
ghost use Rattle.field.specs.Ring.{of_nat};
ghost use Rattle.lookup_debug.specs.Contributions.{Traced, traced_of};
ghost use Rattle.language_meaning.specs.Tables.{tables_of};
ghost use Rattle.check_judge.specs.Causes.{HasNoPlan, IsJudgeRefusal};
ghost use Rattle.check_judge.specs.Constraints.{AreConstrained, Constrained, over_constrained};
ghost use Rattle.check_judge.specs.Found.{IsFound, IsPlanOf, sized_of};
ghost use Rattle.check_judge.specs.Said.{AreSaid, airs_of};
ghost use Rattle.check_judge.specs.Shown.{AreConstraintsFound};
ghost use Rattle.check_judge.specs.Airs.{AreFittingAirs, over_traced};
ghost use Rattle.check_judge.specs.internal.Sizes.{sized_lookups_of};
ghost use Rattle.language_meaning.specs.Buses.{distinct_buses};
ghost use Rattle.language.specs.Batches.{section_of};

use crate::airs::{AirOver, airs_over};
use crate::constraints::{all_hold, failures_of};
use crate::enforced::{EnforcedAirs, enforced_over};
use crate::excess::{are_all_within, excesses_of};
use crate::fault::JudgeFault;
use crate::plan::{plan_over, report_plan};
use crate::report::Report;
use crate::sizes::SizedAir;
use batch::{BatchPlan, BatchTrace};
use field::{ExtensionField, Field, Over};
use field_list::TableField;
use language::BatchText;
use language_meaning::{AirTables, check_buses};
use lookup::debug_util::{BusGroup, LookupDebugInstance, bus_table};
use std::alloc::{AllocError, Global};

/// The AIRs of a batch over its tables, and their plan.
#[derive(Drop)]
pub struct PlannedAirs<F: Field> {
    pub airs: Vec<AirOver<F>>,
    pub plan: BatchPlan<F>,
}

/// What is found of a batch over these tables, one for each AIR in the order of the text, with at
/// most `limit` unbalanced tuples of each bus and as many places of each tuple, and with columns
/// packed within `max_degree`.
///
/// Its lookups and constraints are those of `lookups_of`, over the field; its traces are the tables. What the constraints
/// enforce is shown for all traces of the heights of these that have the preprocessed ones of these.
///
/// Refuses, in this order: a bus that is declared twice; another number of tables than of AIRs; then AIR by
/// AIR a table without columns or rows or with a row that is not whole, the preprocessed one first, the
/// faults of `lookups_of` and `lookups_over`, and lookups that do not fit the tables, as where an AIR's
/// two tables have different numbers of rows; then what `BatchPlan::new`,
/// `BatchPlan::soundness_count` and `BatchPlan::soundness_of_heights` refuse; and last, AIR by AIR, lookups
/// that cannot be packed or whose degree does not fit 64 bits. Also fails when out of memory.
pub fn judge<F: TableField, EF: ExtensionField<F>>(
    alloc: Global,
    text: &[u8],
    batch: &BatchText,
    tables: &[AirTables],
    limit: usize,
    max_degree: usize,
) -> Result<Report<F>, JudgeFault>
    ensures found { let E = ⟦<EF as Over<F>>⟧.fields in
        let sections = map section_of batch.now.sections.items in
        let given = map tables_of tables.now in
        MatchResult result (λ report. (distinct_buses text.now sections ≡ Ok tt)
        × (traced : List (Traced (F)))
        × AreSaid (of_nat F.ring) text.now sections 1048576 (airs_of sections) given traced
        × IsFound E F.CHARACTERISTIC limit max_degree F.number traced report)
        (λ e. (e ≡ JudgeFault.Memory)
        ⊎ IsJudgeRefusal E F.CHARACTERISTIC text.now sections max_degree given e) }
    ensures constraints { let sections = map section_of batch.now.sections.items in
        IfOk result (λ report. (airs : List (Constrained (F)))
        × AreConstrained (of_nat F.ring) text.now sections 1048576 (airs_of sections)
        (map tables_of tables.now) airs
        × AreConstraintsFound F.ring F.eq F.CHARACTERISTIC F.number airs report) }
{
    let PlannedAirs { airs, plan } = planned_airs(alloc, text, batch, tables)?;
    let traces = traces_of(alloc, &airs)?;
    let counts = plan.soundness_count::<EF>(alloc, &traces)?;
    let instances = instances_of(alloc, &airs)?;
    let groups = bus_table(alloc, &instances, limit)?;
    let balanced = all_balance(&groups);
    let sizes = sizes_of(alloc, &airs)?;
    let plan = report_plan::<F, EF>(alloc, &sizes, &plan, max_degree)?;
    let failures = failures_of(alloc, &airs)?;
    let hold = all_hold(&failures);
    let enforced = EnforcedAirs::of_airs(enforced_over(alloc, &airs)?);
    let excesses = excesses_of(alloc, &airs)?;
    let within = are_all_within(&excesses);
    Ok(Report {
        plan,
        counts,
        groups,
        balanced,
        failures,
        hold,
        enforced,
        excesses,
        within,
    })
}

/// The AIRs of a batch over these tables, and their plan.
pub fn planned_airs<F: Field>(
    alloc: Global,
    text: &[u8],
    batch: &BatchText,
    tables: &[AirTables],
) -> Result<PlannedAirs<F>, JudgeFault>
    ensures said { let sections = map section_of batch.now.sections.items in
        IfOk result (λ p. (distinct_buses text.now sections ≡ Ok tt)
        × AreSaid (of_nat F.ring) text.now sections 1048576 (airs_of sections)
        (map tables_of tables.now) (map over_traced p.airs.items)) }
    ensures fit { IfOk result (λ p. AreFittingAirs p.airs.items) }
    ensures constrained { let sections = map section_of batch.now.sections.items in
        IfOk result (λ p. AreConstrained (of_nat F.ring) text.now sections 1048576 (airs_of sections)
        (map tables_of tables.now) (map over_constrained p.airs.items)) }
    ensures planned { IfOk result (λ p. IsPlanOf F.CHARACTERISTIC
        (map (λ a. sized_of (over_traced a)) p.airs.items) (plan_of p.plan)) }
    ensures refused { IfErr result (λ e. (e ≡ JudgeFault.Memory)
        ⊎ HasNoPlan F.CHARACTERISTIC (of_nat F.ring) text.now
        (map section_of batch.now.sections.items) (map tables_of tables.now) e) }
{
    check_buses(text, batch)?;
    let airs = airs_over(alloc, text, batch, tables)?;
    let plan = plan_over(alloc, &sizes_of(alloc, &airs)?)?;
    Ok(PlannedAirs { airs, plan })
}

/// The lookups and the sizes of these AIRs.
fn sizes_of<'a, F: Field>(
    alloc: Global,
    airs: &'a [AirOver<F>],
) -> Result<Vec<SizedAir<'a, F>>, AllocError>
    ensures { IfOk result (λ v. map sized_lookups_of v.items ≡ map (λ a. sized_of (over_traced a)) airs.now) }
{
    let mut sizes = Vec::new(alloc);
    for air in airs {
        sizes.push(SizedAir {
            lookups: &air.lookups,
            rows: air.main.height(),
            columns: air.main.width(),
        })?;
    }
    Ok(sizes)
}

/// The traces of these AIRs, as a plan takes them.
pub fn traces_of<'a, F: Field>(
    alloc: Global,
    airs: &'a [AirOver<F>],
) -> Result<Vec<BatchTrace<'a, F>>, AllocError>
    ensures { IfOk result (λ v. map view_of v.items ≡ map (λ a. (over_traced a).traces) airs.now) }
{
    let mut traces = Vec::new(alloc);
    for air in airs {
        traces.push(BatchTrace {
            main: &air.main,
            preprocessed: air.preprocessed.as_ref(),
            public_values: air.public_values.as_slice(),
        })?;
    }
    Ok(traces)
}

/// These AIRs, as the debug check takes them.
fn instances_of<'a, F: Field>(
    alloc: Global,
    airs: &'a [AirOver<F>],
) -> Result<Vec<LookupDebugInstance<'a, F>>, AllocError>
    ensures { IfOk result (λ v. map traced_of v.items ≡ map over_traced airs.now) }
{
    let mut instances = Vec::new(alloc);
    for air in airs {
        instances.push(LookupDebugInstance {
            main_trace: &air.main,
            preprocessed_trace: air.preprocessed.as_ref(),
            public_values: air.public_values.as_slice(),
            lookups: air.lookups.as_slice(),
            permutation_challenges: &[],
        })?;
    }
    Ok(instances)
}

/// Whether no group has an unbalanced tuple.
fn all_balance<F>(groups: &[BusGroup<F>]) -> bool
    ensures { IsTrue result ↔ All (λ group. group.unbalanced ≡ 0) groups.now }
{
    groups.iter().all(|group| group.unbalanced == 0)
}
