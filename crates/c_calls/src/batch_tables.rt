//! The AIRs of a batch, and the plan that they make.
ghost use Rattle.std.specs.Prelude.{◌≡◌, IfOk, MatchResult, map, max};
ghost use Rattle.std.specs.List.{list_any};
ghost use Rattle.batch.specs.Checks.{OrMemory};
ghost use Rattle.batch.specs.Lists.{lists_of};
ghost use Rattle.batch.specs.Runs.{plan_of};
ghost use Rattle.batch.specs.Traces.{view_of};
ghost use Rattle.lookup.specs.Lookups.{lookups_of};
ghost use Rattle.c_tables.specs.Tables.{TablesEncode};
ghost use Rattle.lookup_model.specs.LookupDegree.{greatest};
ghost use Rattle.c_calls.specs.GivenIds.{given_ids, has_own_ids, id_bound, next_number};
ghost use Rattle.c_calls.specs.BatchTables.{AreTracesOfTables, AreSetsOfTables, IsSetsOfTablesRefusal, IsTracesOfTablesRefusal, IsPlanFromTables, IsGivenIdsRefusal, IsPlanOfTables, IsPlanOfTablesRefusal, IsPlanOverGiven, IsPlanningRefusal, IsSetOfTablesRefusal};
ghost use Rattle.c_calls.specs.Inputs.{view_of_read};

use crate::fault::Fault;
use crate::inputs::{lookups_of, traces_of};
use batch::{BatchError, BatchPlan, BatchTrace};
use c_tables::{ReadTraces, Tables, Traces};
use field_monty::{MontyField31, QuarticParameters};
use lookup::Lookups;
use std::alloc::{AllocError, Global};

/// An AIR of a batch, as it is known before its traces are.
#[repr(C)]
#[derive(Drop)]
pub struct Air<'a> {
    /// The lookups.
    pub tables: Tables<'a>,
    /// The height of the traces.
    pub height: usize,
    /// The ids of the lookups: given for all AIRs of a batch, or for none, where the plan gives them.
    pub ids: &'a [usize],
}

/// The set of lookups that the tables of an AIR encode.
pub(crate) fn set_of<const P: u32, K: QuarticParameters<P>>(
    alloc: Global,
    air: usize,
    tables: &Tables<'_>,
) -> Result<Lookups<MontyField31<P, K>>, Fault>
    ensures { MatchResult result (λ set. TablesEncode tables.now (lookups_of set))
        (IsSetOfTablesRefusal P air tables.now) }
{
    let lookups = lookups_of::<P, K>(alloc, air, tables)?;
    match Lookups::from_records(alloc, lookups) {
        Ok(set) => Ok(set),
        Err(error) => Err(Fault::Lookup { air, error }),
    }
}

/// The sets of all AIRs, in order.
fn sets_of<const P: u32, K: QuarticParameters<P>>(
    alloc: Global,
    airs: &[Air<'_>],
) -> Result<Vec<Lookups<MontyField31<P, K>>>, Fault>
    ensures { MatchResult result (λ v. AreSetsOfTables airs.now v.items)
        (IsSetsOfTablesRefusal P airs.now) }
{
    let mut sets = Vec::with_capacity(alloc, airs.len())?;
    for (index, air) in airs.iter().enumerate() {
        sets.push(set_of::<P, K>(alloc, index, &air.tables)?)?;
    }
    Ok(sets)
}

/// The heights of all AIRs, in order.
fn heights_of(alloc: Global, airs: &[Air<'_>]) -> Result<Vec<usize>, AllocError>
    ensures { IfOk result (λ v. v.items ≡ map (λ air. air.height) airs.now) }
{
    let mut heights = Vec::with_capacity(alloc, airs.len())?;
    for air in airs {
        heights.push(air.height)?;
    }
    Ok(heights)
}

/// Whether some AIR has ids that are given.
fn has_ids(airs: &[Air<'_>]) -> bool
    ensures { result ≡ list_any has_own_ids airs.now }
{
    airs.iter().any(|air| !air.ids.is_empty())
}

/// The ids that are given, AIR by AIR.
fn given_ids(alloc: Global, airs: &[Air<'_>]) -> Result<Vec<Vec<usize>>, AllocError>
    ensures { IfOk result (λ v. lists_of v.items ≡ given_ids airs.now) }
{
    let mut ids = Vec::with_capacity(alloc, airs.len())?;
    for index in 0..airs.len() {
        let air = &airs[index];
        ids.push(Vec::from_slice(alloc, air.ids)?)?;
    }
    Ok(ids)
}

/// The greater of `bound` and one more than the greatest id, up to `usize::MAX`.
fn bound_of_ids(ids: &[usize], bound: usize) -> usize
    ensures { result ≡ max bound (greatest (map next_number ids.now)) }
{
    let mut least = bound;
    for index in 0..ids.len() {
        let id = &ids[index];
        least = least.max(id.saturating_add(1));
    }
    least
}

/// The least number of ids that all these are below, up to `usize::MAX`.
fn id_bound(ids: &[Vec<usize>]) -> usize
    ensures { result ≡ id_bound (lists_of ids.now) }
{
    let mut bound = 0;
    for list in ids {
        bound = bound_of_ids(list.as_slice(), bound);
    }
    bound
}

/// The plan of these sets and heights over the ids that the AIRs are given.
fn plan_over<const P: u32, K: QuarticParameters<P>>(
    alloc: Global,
    airs: &[Air<'_>],
    sets: Vec<Lookups<MontyField31<P, K>>>,
    heights: Vec<usize>,
) -> Result<BatchPlan<MontyField31<P, K>>, BatchError>
    ensures { MatchResult result
        (λ plan. IsPlanOverGiven airs.now sets.items heights.items (plan_of plan))
        (OrMemory (IsGivenIdsRefusal airs.now sets.items heights.items)) }
{
    let ids = given_ids(alloc, airs)?;
    let num_ids = id_bound(&ids);
    BatchPlan::with_ids(alloc, sets, heights, ids, num_ids)
}

/// The plan of these sets and heights: over the ids that the AIRs are given, or else with its own.
fn plan_from<const P: u32, K: QuarticParameters<P>>(
    alloc: Global,
    airs: &[Air<'_>],
    sets: Vec<Lookups<MontyField31<P, K>>>,
    heights: Vec<usize>,
) -> Result<BatchPlan<MontyField31<P, K>>, BatchError>
    ensures { MatchResult result
        (λ plan. IsPlanFromTables airs.now sets.items heights.items (plan_of plan))
        (OrMemory (IsPlanningRefusal airs.now sets.items heights.items)) }
{
    if has_ids(airs) {
        plan_over(alloc, airs, sets, heights)
    } else {
        BatchPlan::new(alloc, sets, heights)
    }
}

/// The plan of these AIRs: over the ids that are given, or else with its own.
///
/// Refuses the first AIR whose tables are refused, or whose lookups have lists of different lengths, and
/// then what a plan refuses.
pub(crate) fn plan_of<const P: u32, K: QuarticParameters<P>>(
    alloc: Global,
    airs: &[Air<'_>],
) -> Result<BatchPlan<MontyField31<P, K>>, Fault>
    ensures { MatchResult result
        (λ plan. IsPlanOfTables airs.now (plan_of plan))
        (IsPlanOfTablesRefusal P airs.now) }
{
    let sets = sets_of::<P, K>(alloc, airs)?;
    let heights = heights_of(alloc, airs)?;
    let plan = plan_from(alloc, airs, sets, heights)?;
    Ok(plan)
}

/// The traces that the tables of all AIRs encode, in order.
pub(crate) fn all_traces<const P: u32, K: QuarticParameters<P>>(
    alloc: Global,
    traces: &[Traces<'_>],
) -> Result<Vec<ReadTraces<MontyField31<P, K>>>, Fault>
    ensures { MatchResult result (λ v. AreTracesOfTables K.positive traces.now v.items)
        (IsTracesOfTablesRefusal K.positive traces.now) }
{
    let mut all = Vec::with_capacity(alloc, traces.len())?;
    for (index, air) in traces.iter().enumerate() {
        all.push(traces_of::<P, K>(alloc, index, air)?)?;
    }
    Ok(all)
}

/// What a plan is given of traces.
pub(crate) fn plan_traces<'a, const P: u32, K: QuarticParameters<P>>(
    alloc: Global,
    traces: &'a [ReadTraces<MontyField31<P, K>>],
) -> Result<Vec<BatchTrace<'a, MontyField31<P, K>>>, AllocError>
    ensures { IfOk result (λ v. map view_of v.items ≡ map view_of_read traces.now) }
{
    let mut all = Vec::with_capacity(alloc, traces.len())?;
    for air in traces {
        all.push(BatchTrace {
            main: &air.main,
            preprocessed: air.preprocessed.as_ref(),
            public_values: air.public_values.as_slice(),
        })?;
    }
    Ok(all)
}
